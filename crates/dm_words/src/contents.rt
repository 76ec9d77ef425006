//! Contents: what data codewords say beyond a message. A content is a head, items and marks (ISO/IEC 16022, ECI
//! encodation, structured append, reader programming).

pub mod content;
pub mod designation;
pub mod designator;
pub mod fault;
pub mod head;
pub mod mark;
pub mod normal_form;
pub mod opening;
pub mod reading;
pub mod symbology;

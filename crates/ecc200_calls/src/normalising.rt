//! Normalising.

ghost use Rattle.std.specs.Prelude.{◌≡◌};
ghost use Rattle.ecc200_calls.specs.Scans.{SoughtResult};
ghost use Rattle.ecc200_calls.specs.Symbols.{IsNormalGiven, IsNormalResult, ProfileResult, no_symbol};

use crate::answer::{Answer, Said, answer_known};
use crate::fault::{Fault, read_content_fault};
use crate::given::check_given;
use crate::profile::profile_of;
use crate::scan::{Scan, Sought, check_scan};
use crate::symbol::{SymbolOut, show_fault};
use crate::writing::write_content;
use dm_symbol::{ContentReadFault, Form, Profile, SizeChoice, WriteOptions};

/// Writes the normal symbol of what the symbol of these modules, of which these are doubtful, says by the numbers of a
/// scan.
pub fn normal(
    modules: &[u8],
    doubtful: &[u8],
    scan: &Scan,
    profile: u16,
    out: &mut SymbolOut,
) -> u16
    ensures out { IsNormalResult modules.now doubtful.now scan.now profile out.old out.new }
    ensures code { result ≡ out.new.fault.code }
{
    match check_scan(*scan) {
        Ok(sought) => normal_sought(sought, modules, doubtful, profile, out),
        Err(why) => show_fault(out, why),
    }
    out.fault.code
}

/// Shows the normal symbol of what is sought in the symbol of these modules, or why there is none.
fn normal_sought(sought: Sought, modules: &[u8], doubtful: &[u8], profile: u16, out: &mut SymbolOut)
    ensures { ProfileResult sought modules.now doubtful.now profile out.old out.new }
{
    match profile_of(profile) {
        Some(profile) => normal_under_profile(sought, profile, modules, doubtful, out),
        None => show_fault(out, Fault::no_such_profile(profile)),
    }
}

/// Shows the normal symbol of what the symbol of these modules says, or why there is none.
fn normal_under_profile(
    sought: Sought,
    profile: Profile,
    modules: &[u8],
    doubtful: &[u8],
    out: &mut SymbolOut,
)
    ensures { SoughtResult sought modules.now doubtful.now (λ why. out.new ≡ no_symbol why out.old)
        (λ symbol doubtful limit. IsNormalGiven sought.extent profile symbol doubtful limit
        out.old out.new) }
{
    match check_given(modules, doubtful, sought.rows, sought.columns) {
        Ok(given) => answer_known(
            &NormalSymbol { profile },
            sought,
            modules,
            doubtful,
            given,
            out,
        ),
        Err(why) => show_fault(out, why),
    }
}

/// That a call gives the normal symbol, under a profile, of what a symbol says. It is written in a room of its own:
/// what it takes in a square can be less than what the symbol takes, or more.
#[derive(Clone, Copy)]
struct NormalSymbol {
    profile: Profile,
}

impl Answer for NormalSymbol {
    type Out = SymbolOut;

    ghost IsGiven = { λ normal extent rows columns. IsNormalGiven extent normal.profile };

    fn show(&self, said: &Said, out: &mut SymbolOut) {
        let how = WriteOptions {
            form: Form::Profiled(self.profile),
            size: SizeChoice::Square,
        };
        write_content(said.head, said.items, said.marks, how, out);
    }

    fn refuse(&self, why: ContentReadFault, out: &mut SymbolOut) {
        show_fault(out, read_content_fault(why));
    }
}

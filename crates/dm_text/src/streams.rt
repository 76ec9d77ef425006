//! A task over two streams, as the program does it.

ghost use Rattle.dm_text.specs.Runs.{IsRun, most_input};

use crate::running::run;
use crate::sink::Sink;
use crate::source::Source;
use crate::task::{RunFault, Tally, Task};

/// The most bytes of input that the program reads, 1 GiB.
const MOST_INPUT: u64 = 1 << 30;

/// Does a task as [`run`] does, with at most 1 GiB of input. The program uses it for its standard streams.
pub fn run_streams<I: Source, O: Sink>(
    task: Task,
    source: &mut I,
    sink: &mut O,
) -> Result<Tally, RunFault>
    ensures ends { IsRun task most_input result
        (I.gave source.old source.new) (I.ended source.new) (I.asked source.old source.new)
        (I.failed source.old) (I.failed source.new)
        (O.contents sink.old) (O.contents sink.new) (O.flushed sink.old sink.new)
        (O.is_pending sink.new) (O.failed sink.old) (O.failed sink.new) }
{
    run(task, source, sink, MOST_INPUT)
}

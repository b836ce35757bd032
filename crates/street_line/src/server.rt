//! One line, served: read, made a command, given to the service, and answered. `runs.rt` makes one of each service.
ghost use Rattle.std.specs.Prelude.{IfOk, OnErr};
ghost use Rattle.street_text.specs.LineCommands.{reading};
ghost use Rattle.street_line.specs.Runs.{said_by};
ghost use Rattle.street_line.specs.ServedLine.{IsAnsweredBy, StopsAt};

use crate::answers::answer_to;
use crate::service::Service;
use std::alloc::Global;
use street_base::Starved;
use street_stream::{LineAnswer, LineHandler, PartialLine};
use street_text::{LineReader, fault_text};

/// A service as a handler of lines.
#[derive(Drop)]
pub(crate) struct LineServer<'a, S> {
    /// What serves.
    pub(crate) service: &'a mut S,
    /// What reads the lines.
    pub(crate) reader: &'a mut LineReader,
}

/// Reads a line that is not blank, has the service serve its command, and gives the text of the reply; a faulty line is
/// answered by its fault, and nothing is served.
///
/// # Errors
///
/// `Starved` where there was no memory to read the line, or to answer its fault: nothing was served; or where its command was served, and is
/// not answered.
fn answer<S: Service>(
    alloc: Global,
    reader: &mut LineReader,
    service: &mut S,
    line: &[u8],
) -> Result<LineAnswer, Starved>
    requires ready { S.ready }
    ensures answered { IfOk result (λ answer. IsAnsweredBy S.serves service.old (said_by (reading line.now)) answer service.new) }
    ensures starved { OnErr result (StopsAt S.serves service.old (said_by (reading line.now)) service.new) }
{
    let command = match reader.read(alloc, line) {
        Ok(command) => command,
        Err(fault) => {
            let text = fault_text(alloc, fault)?;
            return Ok(LineAnswer {
                is_call: false,
                reply: Ok(Some(text)),
            });
        }
    };
    let served = service.serve(command);
    answer_to(alloc, served)
}

impl<'a, S: Service> LineHandler for LineServer<'a, S> {
    ghost use Rattle.std.specs.Prelude.{◌≡◌};
    ghost use Rattle.street_line.specs.Runs.{said};
    ghost use Rattle.street_line.specs.ServedLine.{IsServed, StopsAt};
    ghost use Rattle.street_text.specs.LineCommands.{longest_line};

    type Stop = Starved;

    ghost meaning = { record {
      longest = longest_line;
      takes = λ old line effect new. (new.service.ghost_name ≡ old.service.ghost_name)
          × IsServed S.serves old.service.now line effect new.service.now;
      stops = λ old line stop new. (new.service.ghost_name ≡ old.service.ghost_name)
          × StopsAt S.serves old.service.now (said line) new.service.now;
    } };

    ghost ready = { S.ready };

    /// Serves a line as `answer` does; a blank line gets no reply.
    fn take(&mut self, alloc: Global, line: &PartialLine) -> Result<LineAnswer, Starved> {
        if line.is_blank() {
            return Ok(LineAnswer {
                is_call: false,
                reply: Ok(None),
            });
        }
        answer(alloc, self.reader, self.service, line.as_slice())
    }
}

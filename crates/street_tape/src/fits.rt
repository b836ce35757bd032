//! The numbers of a journal's calls are numbers of 64 bits, which the laws of tapes ask of a list of calls. Each function here
//! looks at every number once: a contract knows the range of a number that was read. `laws.rt` calls it: the program calls none
//! of them.
ghost use Rattle.std.specs.Prelude.{All, length};
ghost use Rattle.street_base.specs.declared.command.Command.TheVariants.{Load};
ghost use Rattle.street_tape.specs.Entries.{IsOfWords, OutcomeFits};
ghost use Rattle.street_text.specs.Fits.{IsWord, NodeFits, LinkFits, TurnFits, GreenFits, PhaseFits, Fits};

use street_base::{Command, GreenSpec, LinkSpec, NetSpec, NodeSpec, Outcome, PhaseSpec, TurnSpec};
use street_desk::{Entry, Journal};

/// Says of a number, for proofs, that it is one of 64 bits. Like all functions here it does nothing else.
fn word_fits(_number: u64)
    ensures { IsWord _number }
{}

/// Says, for proofs, that each number of a list fits.
fn words_fit(numbers: &[u64])
    ensures { All IsWord numbers.now }
{
    for number in numbers {
        word_fits(*number);
    }
}

/// Says, for proofs, that the numbers of a node of a network fit.
fn node_fits(spec: &NodeSpec)
    ensures { NodeFits spec.now }
{
    word_fits(spec.id);
    word_fits(spec.residence);
    word_fits(spec.capacity);
}

/// Says, for proofs, that the numbers of each node of a list fit.
fn nodes_fit(specs: &[NodeSpec])
    ensures { All NodeFits specs.now }
{
    for spec in specs {
        node_fits(spec);
    }
}

/// Says, for proofs, that the numbers of a link of a network fit.
fn link_fits(spec: &LinkSpec)
    ensures { LinkFits spec.now }
{
    word_fits(spec.id);
    word_fits(spec.from);
    word_fits(spec.to);
    word_fits(spec.lanes);
    word_fits(spec.length);
    word_fits(spec.limit);
}

/// Says, for proofs, that the numbers of each link of a list fit.
fn links_fit(specs: &[LinkSpec])
    ensures { All LinkFits specs.now }
{
    for spec in specs {
        link_fits(spec);
    }
}

/// Says, for proofs, that the numbers of a turn of a network fit.
fn turn_fits(spec: &TurnSpec)
    ensures { TurnFits spec.now }
{
    word_fits(spec.link);
    word_fits(spec.lane);
    word_fits(spec.next);
    word_fits(spec.next_lane);
}

/// Says, for proofs, that the numbers of each turn of a list fit.
fn turns_fit(specs: &[TurnSpec])
    ensures { All TurnFits specs.now }
{
    for spec in specs {
        turn_fits(spec);
    }
}

/// Says, for proofs, that the numbers of a green turn fit.
fn green_fits(spec: &GreenSpec)
    ensures { GreenFits spec.now }
{
    word_fits(spec.link);
    word_fits(spec.lane);
    word_fits(spec.next);
}

/// Says, for proofs, that the numbers of each green turn of a list fit.
fn greens_fit(specs: &[GreenSpec])
    ensures { All GreenFits specs.now }
{
    for spec in specs {
        green_fits(spec);
    }
}

/// Says, for proofs, that the numbers of a phase fit: how long it lasts, and those of its green turns.
fn phase_fits(spec: &PhaseSpec)
    ensures { PhaseFits spec.now }
{
    word_fits(spec.duration);
    greens_fit(spec.greens.as_slice());
}

/// Says, for proofs, that the numbers of each phase of a list fit.
fn phases_fit(specs: &[PhaseSpec])
    ensures { All PhaseFits specs.now }
{
    for spec in specs {
        phase_fits(spec);
    }
}

/// Says, for proofs, that the numbers of a network to be loaded fit.
fn net_fits(spec: &NetSpec)
    ensures { Fits (Load spec.now) }
{
    nodes_fit(spec.nodes.as_slice());
    links_fit(spec.links.as_slice());
    turns_fit(spec.turns.as_slice());
    word_fits(spec.zone);
    word_fits(spec.dawdle);
    word_fits(spec.change);
    word_fits(spec.seed);
    word_fits(spec.start);
}

/// Says, for proofs, that the four numbers of a command that names a lane fit: its link and lane, and two more.
fn lane_command_fits(link: u64, lane: u64, one: u64, other: u64)
    ensures { IsWord link × IsWord lane × IsWord one × IsWord other }
{}

/// Says, for proofs, that the numbers of a command fit.
fn command_fits(command: &Command)
    ensures { Fits command.now }
{
    match command {
        Command::Load(spec) => net_fits(spec),
        Command::Enter {
            plan,
            lane,
            depart,
            size,
        } => {
            words_fit(plan.as_slice());
            word_fits(*lane);
            word_fits(*depart);
            word_fits(*size);
        }
        Command::Signal {
            node,
            offset,
            phases,
        } => {
            word_fits(*node);
            word_fits(*offset);
            phases_fit(phases.as_slice());
        }
        Command::Advance { steps } => word_fits(*steps),
        Command::CloseLane {
            link,
            lane,
            first,
            last,
        } => lane_command_fits(*link, *lane, *first, *last),
        Command::ReopenLane {
            link,
            lane,
            first,
            last,
        } => lane_command_fits(*link, *lane, *first, *last),
        Command::TakeOut { car } => word_fits(*car),
        Command::PlaceMeter {
            link,
            lane,
            cell,
            period,
        } => lane_command_fits(*link, *lane, *cell, *period),
        Command::ReadMeter { meter } => word_fits(*meter),
        Command::Vehicle { car } => word_fits(*car),
        Command::Lane { link, lane } => {
            word_fits(*link);
            word_fits(*lane);
        }
        Command::Count => {}
    }
}

/// Says, for proofs, that the number of steps that an outcome tells fits, where it tells one.
fn outcome_fits(outcome: Outcome)
    ensures { OutcomeFits outcome }
{
    if let Outcome::Short(steps) = outcome {
        word_fits(steps);
    }
}

/// Says, for proofs, that the numbers of a call fit: of its session, its command and its outcome.
fn call_fits(entry: &Entry)
    ensures { IsOfWords entry.now }
{
    word_fits(entry.session);
    command_fits(&entry.command);
    outcome_fits(entry.outcome);
}

/// Says, for proofs, that the number of calls of a journal fits.
pub(crate) fn length_fits(journal: &Journal)
    ensures { IsWord (length journal.now) }
{
    word_fits(journal.len() as u64);
}

/// Says, for proofs, that the numbers of each call of a journal fit.
pub(crate) fn calls_fit(journal: &Journal)
    ensures { All IsOfWords journal.now }
{
    for at in 0..journal.len() {
        let Some(entry) = journal.entry(at) else {
            unreachable!();
        };
        call_fits(entry);
    }
}

//! Each command is read from its own text. Nothing is run here.
ghost use Rattle.std.specs.Prelude.{◌≡◌, ◌≤◌, Ok, length};
ghost use Rattle.street_base.specs.declared.command.Command.{Command};
ghost use Rattle.street_text.specs.LineCommands.{longest_line, reading};
ghost use Rattle.street_text.specs.CommandTexts.{text_of};
ghost use Rattle.street_text.specs.Fits.{Fits};

/// A law, for proofs; the call does nothing. The text of every command of numbers of 64 bits reads as that command, if it is no
/// longer than a line may be.
pub fn command_reads_back()
    ensures { (c : Command) → Fits c → length (text_of c) ≤ longest_line → reading (text_of c) ≡ Ok c }
{}

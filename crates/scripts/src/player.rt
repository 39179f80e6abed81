//! Plays the lines of a script in a world, and adds their output to a text.
ghost use Rattle.std.specs.Prelude.{◌≡◌, ◌++◌, ℕ, List, None, IfOk, OnOk, chars, length, string_bytes, true};
ghost use Rattle.world3270.specs.model.ByteRuns.{refused_at};
ghost use Rattle.world3270.specs.model.ByteSteps.{Steps};
ghost use Rattle.scripts.specs.Happenings.{AreTyped, Happening, TakePlace, answer_text, answers_text, is_refused};
ghost use Rattle.scripts.specs.Plays.{GivesAnswer, IsPlayed, PrintsIf, command_in_range, is_in_range, terminal_count};
ghost use Rattle.applications.specs.QuestionLines.{question_on, question_text};

use crate::idle::{run_until_idle, step_whole};
use crate::operator::{put_display, put_phase, put_refusal};
use crate::script_line::{ScriptCommand, typed_text};
use applications::{answer_in, put_question, question_on, ticket_on};
use codes3270::Model;
use keyboard::Key;
use std::alloc::{AllocError, Global};
use world3270::{Event, Stepped, World};

/// The models of the terminals of a script, by terminal number.
pub static MODELS: [Model; 4] = [Model::M2, Model::M3, Model::M4, Model::M5];

/// Adds the line for an event's answer: `refused N` for a refused key, `skipped` for a skipped event, or no line.
pub fn put_answer(text: &mut String, answer: Stepped) -> Result<(), AllocError>
    ensures { OnOk result (string_bytes text.new ≡ string_bytes text.old ++ answer_text answer) }
{
    match answer {
        Stepped::Done | Stepped::Part(_) | Stepped::Memory => Ok(()),
        Stepped::Refused(why) => put_refusal(text, why),
        Stepped::Skipped => text.push_str("skipped\n"),
    }
}

/// Takes an event, unless it is skipped, and adds the line for its answer.
fn happen(world: &mut World, event: Event, text: &mut String) -> Result<Stepped, AllocError>
    ensures steps { IfOk result (λ answer. Steps event world.old answer world.new) }
    ensures whole { IfOk result (λ answer. refused_at answer ≡ None) }
    ensures said { IfOk result (λ answer. string_bytes text.new ≡ string_bytes text.old ++ answer_text answer) }
{
    let answer = step_whole(world, event)?;
    put_answer(text, answer)?;
    Ok(answer)
}

/// Whether a key was refused.
fn is_refused(answer: Stepped) -> bool
    ensures { result ≡ is_refused answer }
{
    matches!(answer, Stepped::Refused(_))
}

/// Types the characters of a text at a terminal, up to the first that is refused.
fn type_text(
    world: &mut World,
    terminal: usize,
    typed: &str,
    text: &mut String,
) -> Result<(), AllocError>
    ensures { OnOk result ((happenings : List Happening) × AreTyped terminal (chars typed.now) happenings
        × TakePlace happenings world.old world.new
        × (string_bytes text.new ≡ string_bytes text.old ++ answers_text happenings)) }
{
    for letter in typed.chars() {
        let answer = happen(world, Event::Key(terminal, Key::Char(letter)), text)?;
        if is_refused(answer) {
            return Ok(());
        }
    }
    Ok(())
}

/// Answers the open question of a connection with the answer in a text, and adds the line for the event's answer. False
/// if the text is invalid: then nothing happens.
fn give_answer(
    alloc: Global,
    world: &mut World,
    conn: usize,
    said: &str,
    text: &mut String,
) -> Result<bool, AllocError>
    ensures { IfOk result
        (λ given. GivesAnswer given conn said.now world.old world.new (string_bytes text.old) (string_bytes text.new)) }
{
    let Some(answer) = answer_in(alloc, world.host().panels(), said)? else {
        return Ok(false);
    };
    let ticket = ticket_on(world.host(), conn)?;
    happen(world, Event::Answer(conn, ticket, answer), text)?;
    Ok(true)
}

/// Adds the lines of the open question of a connection.
fn ask(alloc: Global, world: &World, conn: usize, text: &mut String) -> Result<(), AllocError>
    ensures { OnOk result (string_bytes text.new ≡ string_bytes text.old
        ++ question_text world.now.host.panels (question_on conn world.now.host)) }
{
    let question = question_on(world.host(), conn)?;
    put_question(alloc, text, world.host().panels(), &question)
}

/// Whether the terminal of a `show` or `status` exists. True for other commands.
fn is_in_range(command: &ScriptCommand) -> bool
    ensures { result ≡ is_in_range terminal_count command.now }
{
    match command {
        ScriptCommand::Show(terminal) | ScriptCommand::Status(terminal) => *terminal < MODELS.len(),
        _ => true,
    }
}

/// The command of a line; None if the line is invalid. The operand of an `answer` isn't checked yet.
pub fn command_in_range(line: &str) -> Option<ScriptCommand>
    ensures { result ≡ command_in_range terminal_count line.now }
{
    let command = ScriptCommand::read(line)?;
    if is_in_range(&command) {
        Some(command)
    } else {
        None
    }
}

/// Executes a command, and adds its output. False if its line is invalid: then nothing happens.
fn play_line(
    alloc: Global,
    world: &mut World,
    command: ScriptCommand,
    line: &str,
    text: &mut String,
) -> Result<bool, AllocError>
    requires terminals { length world.old.slots ≡ terminal_count }
    requires in_range { is_in_range terminal_count command ≡ true }
    ensures { IfOk result (λ understood. PrintsIf understood command line.now world.old world.new
        (string_bytes text.old) (string_bytes text.new)) }
{
    match command {
        ScriptCommand::Nothing => {}
        ScriptCommand::Happen(event) => {
            happen(world, event, text)?;
        }
        ScriptCommand::TypeText(terminal) => type_text(world, terminal, typed_text(line), text)?,
        ScriptCommand::Answer(conn) => {
            return give_answer(alloc, world, conn, typed_text(line), text);
        }
        ScriptCommand::Settle => run_until_idle(world)?,
        ScriptCommand::Show(terminal) => put_display(alloc, world.terminal(terminal), text)?,
        ScriptCommand::Status(terminal) => put_phase(world.terminal(terminal), text)?,
        ScriptCommand::Question(conn) => ask(alloc, world, conn, text)?,
    }
    Ok(true)
}

/// Plays a script, one command in each line, and adds its output. Ends at the first invalid line, and returns its
/// 1-based number. The lines before it have taken effect.
///
/// A line ends with a newline, which the last line may lack.
pub(crate) fn play(
    alloc: Global,
    world: &mut World,
    script: &str,
    text: &mut String,
) -> Result<Option<usize>, AllocError>
    requires { length world.old.slots ≡ terminal_count }
    ensures { IfOk result (λ stopped. (printed : List ℕ) × IsPlayed script.now world.old printed stopped world.new
        × (string_bytes text.new ≡ string_bytes text.old ++ printed)) }
{
    for (index, line) in script.split_terminator('\n').enumerate() {
        let Some(command) = command_in_range(line) else {
            return Ok(Some(index + 1));
        };
        if !play_line(alloc, world, command, line, text)? {
            return Ok(Some(index + 1));
        }
    }
    Ok(None)
}

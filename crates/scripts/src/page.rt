//! The page that `show` prints.
ghost use Rattle.std.specs.Prelude.{◌≡◌, ◌++◌, ℕ, List, Option, IfOk, OnOk, string_bytes};
ghost use Rattle.jobs.specs.Runs.{ending_of};
ghost use Rattle.scripts.specs.Pages.{first_screen, sense_text, TakesCommand, IsPage};
ghost use Rattle.scripts.specs.ScreenText.{screen_text};
ghost use Rattle.scripts.specs.PageJobRuns.{EndsPrinting};
ghost use Rattle.scripts.specs.declared.page_job.PageJob.TheVariants.{Show};

use codes3270::Model;
use datastream::{Sense, read_command};
use jobs::{Fault, Sink, bytes_of_line};
use presentation::Screen;
use std::alloc::{AllocError, Global};
use term_core::screen_lines;

/// The page of an input.
#[derive(Drop)]
pub struct Page {
    /// A line for each refused command; then the screen and its cursor, unless a line isn't hexadecimal.
    pub text: String,
    /// The 1-based number of the first line that isn't hexadecimal. The run ends there.
    pub not_hex: Option<usize>,
}

/// A blank screen of a model.
fn first_screen(model: Model) -> Screen
    ensures { result ≡ first_screen model }
{
    Screen::blank(model)
}

/// The name of a negative response's sense code (RFC 1647, section 10.4).
fn sense_text(sense: Sense) -> &'static str
    ensures { result.now ≡ sense_text sense }
{
    match sense {
        Sense::CommandReject => "COMMAND-REJECT",
        Sense::OperationCheck => "OPERATION-CHECK",
    }
}

/// Applies the command that the bytes encode, for the screen's current and alternate sizes. If it has a fault, changes
/// nothing, and adds the refusal to the text.
fn take_command(screen: &mut Screen, bytes: &[u8], text: &mut String) -> Result<(), AllocError>
    ensures { OnOk result ((said : List ℕ) × TakesCommand bytes.now screen.old screen.new said
        × (string_bytes text.new ≡ string_bytes text.old ++ said)) }
{
    match read_command(bytes, screen.size(), screen.model().alternate()) {
        Ok(command) => {
            screen.apply(&command);
            Ok(())
        }
        Err(fault) => {
            let response = sense_text(fault.sense());
            write!(text, "refused {response}\n")
        }
    }
}

/// Adds the screen: a line for each row, without trailing blanks, and the line `cursor N`, with the 0-based buffer
/// address.
fn put_screen(alloc: Global, text: &mut String, screen: &Screen) -> Result<(), AllocError>
    ensures { OnOk result (string_bytes text.new ≡ string_bytes text.old ++ screen_text screen.now) }
{
    let rows = screen_lines(alloc, screen)?;
    text.push_str(rows.as_str())?;
    let cursor = screen.cursor().get();
    write!(text, "cursor {cursor}\n")
}

/// Applies the commands of an input, one in each line, in order to a blank screen of a model. The page has a line for
/// each refused command, a line for each row of the screen, and its cursor. It ends at the first line that isn't
/// hexadecimal, without a screen. An error if memory is refused.
///
/// A line ends with a newline, which the last line may lack. It is pairs of hexadecimal digits in either case, with
/// blanks before, between and after them. A line without digits is a command of no bytes.
pub fn page_of(alloc: Global, model: Model, input: &str) -> Result<Page, AllocError>
    ensures found { IfOk result (λ page. IsPage model input.now (string_bytes page.text) page.not_hex) }
    // There is no other page.
    ensures only { (printed : List ℕ) (not_hex : Option ℕ) → IsPage model input.now printed not_hex
        → IfOk result (λ page. (string_bytes page.text ≡ printed) × (page.not_hex ≡ not_hex)) }
{
    let mut text = String::new(alloc);
    let mut screen = first_screen(model);
    for (index, line) in input.split_terminator('\n').enumerate() {
        let Some(bytes) = bytes_of_line(alloc, line)? else {
            return Ok(Page {
                text,
                not_hex: Some(index + 1),
            });
        };
        take_command(&mut screen, bytes.as_slice(), &mut text)?;
    }
    put_screen(alloc, &mut text, &screen)?;
    Ok(Page {
        text,
        not_hex: None,
    })
}

/// Prints the page of a text, for a screen of this model.
pub(crate) fn print_page<O: Sink>(
    alloc: Global,
    model: Model,
    text: &str,
    out: &mut O,
) -> Result<(), Fault>
    ensures { EndsPrinting (Show model) (ending_of result) text.now (O.seen out.old) (O.seen out.new) }
{
    let page = page_of(alloc, model, text)?;
    if out.write_all(page.text.as_bytes()).is_err() {
        return Err(Fault::OutputFailed);
    }
    match page.not_hex {
        Some(line) => Err(Fault::NotHex(line)),
        None => Ok(()),
    }
}

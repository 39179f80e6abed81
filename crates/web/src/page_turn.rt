//! The turn of a page and its terminal.
ghost use Rattle.std.specs.Prelude.{◌≡◌, ◌∷◌, [], IfErr, IfOk, OnOk};
ghost use Rattle.web.specs.Pages.{BreaksPageTurn, DrawsTurn, Exchanges, FailsToDraw, FailsToExchange, FailsToServe, Serves, fault_of, TakesPageTurn, has_moved, is_got, is_lost, redraw_key, waiting};

use crate::page_link::PageLink;
use host_core::{LinkRead, LinkWrite};
use jobs::{Fault, RawRead, RawWrite};
use operate::OperatorSession;
use std::alloc::Global;
use web_wire::{Closing, Received, SendFault};

/// A terminal whose drawings are sent to a page.
pub(crate) type PageTerminal<H> = OperatorSession<H, (), ()>;

/// Ctrl-L, by which the whole screen is drawn (see crate `tty`).
const REDRAW: u8 = 12;

/// What a turn of a page was.
#[derive(Clone, Copy)]
pub(crate) enum PageTurn {
    /// The page goes on. `heard`: it has sent something; `moved`: a byte was read or written, or a message was taken;
    /// `typed`: how many bytes of keys were pressed.
    Going {
        heard: bool,
        moved: bool,
        typed: usize,
    },
    /// The page's socket has ended or failed.
    Lost,
    /// The WebSocket is closed, for this reason.
    Closed(Closing),
}

/// Whether a read says that the socket has ended or failed.
fn is_lost(came: LinkRead) -> bool
    ensures { result ≡ is_lost came }
{
    matches!(came, LinkRead::Ended | LinkRead::Failed)
}

/// Whether a read gave bytes.
fn is_got(came: LinkRead) -> bool
    ensures { result ≡ is_got came }
{
    matches!(came, LinkRead::Got(_))
}

/// Whether a frame was read.
fn has_moved(received: &Received) -> bool
    ensures { result ≡ has_moved received.now }
{
    !matches!(received, Received::Waiting)
}

/// The fault that ends a session whose drawing can't be sent.
fn fault_of(fault: SendFault) -> Fault
    ensures { result ≡ fault_of fault }
{
    match fault {
        SendFault::Memory => Fault::NoMemory,
        SendFault::Full => Fault::OutputFailed,
    }
}

/// Takes a turn of the terminal, in which these bytes were typed, and sends its drawing to the page. Answers whether a
/// byte moved on the host's connection.
pub(crate) fn draw_turn<B: RawRead + RawWrite + Drop, H: RawRead + RawWrite + Drop>(
    alloc: Global,
    typed: &[u8],
    page: &mut PageLink<B>,
    terminal: &mut PageTerminal<H>,
) -> Result<bool, Fault>
    ensures draws { OnOk result
        (DrawsTurn H.read_gave H.write_took typed.now page.old terminal.old page.new terminal.new) }
    ensures fails { IfErr result
        (FailsToDraw H.read_gave H.write_took typed.now page.old terminal.old page.new terminal.new) }
{
    let mut drawing = Vec::new(alloc);
    let moved = terminal.turn_typed(alloc, typed, &mut drawing)?;
    match page.draw(drawing.as_slice()) {
        Ok(()) => Ok(moved),
        Err(fault) => Err(fault_of(fault)),
    }
}

/// Draws the whole screen on a page that doesn't show it yet.
pub(crate) fn draw_again<B: RawRead + RawWrite + Drop, H: RawRead + RawWrite + Drop>(
    alloc: Global,
    page: &mut PageLink<B>,
    terminal: &mut PageTerminal<H>,
) -> Result<bool, Fault>
    ensures draws { OnOk result (DrawsTurn H.read_gave H.write_took (redraw_key ∷ []) page.old terminal.old page.new
        terminal.new) }
    ensures fails { IfErr result (FailsToDraw H.read_gave H.write_took (redraw_key ∷ []) page.old terminal.old page.new
        terminal.new) }
{
    draw_turn(alloc, &[REDRAW], page, terminal)
}

/// Reads a frame, presses its keys, and sends the drawing.
fn serve<B: RawRead + RawWrite + Drop, H: RawRead + RawWrite + Drop>(
    alloc: Global,
    heard: bool,
    page: &mut PageLink<B>,
    terminal: &mut PageTerminal<H>,
) -> Result<PageTurn, Fault>
    ensures serves { IfOk result
        (λ turn. Serves H.read_gave H.write_took heard page.old terminal.old turn page.new terminal.new) }
    ensures fails { IfErr result
        (λ fault. FailsToServe H.read_gave H.write_took fault page.old terminal.old page.new terminal.new) }
{
    let mut keys = Vec::new(alloc);
    let received = page.read_frame(&mut keys);
    if let Received::Closed(closing) = received {
        return Ok(PageTurn::Closed(closing));
    }
    let pressed = keys.as_slice();
    let moved = draw_turn(alloc, pressed, page, terminal)?;
    Ok(PageTurn::Going {
        heard,
        moved: moved | has_moved(&received),
        typed: pressed.len(),
    })
}

/// Reads the page's socket, and serves the page unless the socket has ended.
fn exchange<B: RawRead + RawWrite + Drop, H: RawRead + RawWrite + Drop>(
    alloc: Global,
    page: &mut PageLink<B>,
    terminal: &mut PageTerminal<H>,
) -> Result<PageTurn, Fault>
    ensures exchanges { IfOk result (λ turn. Exchanges H.read_gave H.write_took B.read_gave page.old terminal.old turn
        page.new terminal.new) }
    ensures fails { IfErr result (λ fault. FailsToExchange H.read_gave H.write_took B.read_gave fault page.old
        terminal.old page.new terminal.new) }
{
    let came = page.receive();
    if is_lost(came) {
        return Ok(PageTurn::Lost);
    }
    serve(alloc, is_got(came), page, terminal)
}

/// What a turn is in which output waits: nothing is read, and nothing is drawn.
fn waiting(wrote: LinkWrite) -> PageTurn
    ensures { result ≡ waiting wrote }
{
    match wrote {
        LinkWrite::Took(_) => PageTurn::Going {
            heard: false,
            moved: true,
            typed: 0,
        },
        LinkWrite::NotNow => PageTurn::Going {
            heard: false,
            moved: false,
            typed: 0,
        },
        LinkWrite::Failed => PageTurn::Lost,
    }
}

/// One turn of a page and its terminal: sends what waits; then, unless something still waits, reads the page's socket
/// and the next frame, takes a turn of the terminal with the keys, and sends the drawing. So of a page that is slow at
/// most one drawing waits, and its host's connection isn't read.
///
/// A fault ends the session: it is one of the host's connection; NoMemory if memory is refused; or OutputFailed if the
/// drawing is too long for a page.
pub(crate) fn take_page_turn<B: RawRead + RawWrite + Drop, H: RawRead + RawWrite + Drop>(
    alloc: Global,
    page: &mut PageLink<B>,
    terminal: &mut PageTerminal<H>,
) -> Result<PageTurn, Fault>
    ensures takes { IfOk result (λ turn. TakesPageTurn H.read_gave H.write_took B.read_gave B.write_took page.old
        terminal.old turn page.new terminal.new) }
    ensures breaks { IfErr result (λ fault. BreaksPageTurn H.read_gave H.write_took B.read_gave B.write_took fault
        page.old terminal.old page.new terminal.new) }
{
    let wrote = page.send();
    if page.has_output() {
        return Ok(waiting(wrote));
    }
    let turn = exchange(alloc, page, terminal)?;
    page.send();
    Ok(turn)
}

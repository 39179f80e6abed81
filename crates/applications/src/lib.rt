//! What an application is asked and what it answers, as requests and replies and as lines of a script; and the host of
//! a panel text.
//!
//! This crate opens no socket, and it does not write or parse HTTP and JSON (crate `application_http` does).
//! [`Exchanges`] takes the open questions of an [`AskingServer`], sends each as a request on a connection that the server
//! makes or the application keeps, and hands the server the answer or the fault. [`Notifications`] tells the application
//! of ended sessions.
//! [`put_question`] prints a question for a script, and [`answer_in`] reads an answer from one. [`host_of`] makes a host
//! from a panel text, and [`first_asked`] finds a panel that needs an application. `specs/ExchangeTurns` defines a turn
//! of an exchange; `ApplicationRequests`, `Applications`, `QuestionLines` and `AnswerLines` define the texts, and
//! `PlainTexts` how any text is written in code page 037.
#![tactic(auto)]

mod answer_line;
mod application_fault;
mod application_reply;
mod application_request;
mod asked_key;
mod ended_session;
mod exchange;
mod exchanges;
mod notifications;
mod panel_host;
mod plain_text;
mod question_line;
mod session_name;

pub use answer_line::answer_in;
pub use application_fault::{Absence, ApplicationFault, FailureMessage};
pub use application_reply::{AnswerFault, Replaced, replaced_in};
pub use application_request::{KeyName, Query};
pub use asked_key::{AskedKey, JobWithoutApplication, first_asked, refuse_asking};
pub use ended_session::EndedSession;
pub use exchange::IoProgress;
pub use exchanges::{Asking, AskingServer, Exchanges};
pub use notifications::Notifications;
pub use panel_host::{application_of, host_of};
pub use question_line::{put_question, question_on, ticket_on};
pub use session_name::{SessionName, draw_boot};

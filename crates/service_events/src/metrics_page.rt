//! The page of a service's metrics, in Prometheus' text format, version 0.0.4.
use crate::metrics::Metrics;
use std::fmt;
use tn3270e_msg::Cause;

const CAUSES: [Cause; 10] = [
    Cause::NoTn3270e,
    Cause::NoResponses,
    Cause::BadTalk,
    Cause::TooMany,
    Cause::Wire,
    Cause::BadRecord,
    Cause::BadInbound,
    Cause::BadResponse,
    Cause::Negative,
    Cause::RuleBroken,
];

/// The reasons of rejections.
const REJECTIONS: [&str; 5] = [
    "DEVICE-IN-USE",
    "INV-NAME",
    "INV-DEVICE-TYPE",
    "UNSUPPORTED-REQ",
    "other",
];

/// The reasons of questions that the application didn't answer.
const FAILURES: [&str; 7] = [
    "refused",
    "broken",
    "timeout",
    "no-memory",
    "status",
    "bad-reply",
    "left",
];

/// The bounds of the times from a question to its answer, in seconds.
const BOUNDS: [&str; 13] = [
    "0.005", "0.01", "0.025", "0.05", "0.1", "0.25", "0.5", "1", "2.5", "5", "10", "30", "+Inf",
];

/// The page: what was counted, and the process.
#[derive(Clone, Copy)]
pub struct MetricsPage {
    pub metrics: Metrics,
    /// The program's version.
    pub version: &'static str,
    /// When the process started, in seconds since 1970 in UTC; None if the clock failed.
    pub started: Option<i64>,
    /// How many lines of the log were dropped.
    pub lines_dropped: u64,
}

impl Metrics {
    /// Adds the metrics of connections.
    fn put_sessions<W: fmt::Write>(&self, f: &mut fmt::Formatter<W>) -> fmt::Result {
        let (current, begun) = (self.current, self.begun);
        write!(
            f,
            "# HELP panel3270_sessions Connections of terminals that are open.
# TYPE panel3270_sessions gauge
panel3270_sessions {current}
# HELP panel3270_sessions_total Connections of terminals that began.
# TYPE panel3270_sessions_total counter
panel3270_sessions_total {begun}
# HELP panel3270_session_ends_total Connections of terminals that ended, by what ended them.
# TYPE panel3270_session_ends_total counter
"
        )?;
        for (cause, count) in CAUSES.iter().zip(&self.closed) {
            write!(
                f,
                "panel3270_session_ends_total{{end=\"closed\",cause=\"{cause}\"}} {count}\n"
            )?;
        }
        let (lost, idle, no_agreement) = (self.lost, self.idle, self.no_agreement);
        let (by_application, turned_away) = (self.by_application, self.turned_away);
        write!(
            f,
            "panel3270_session_ends_total{{end=\"lost\"}} {lost}
panel3270_session_ends_total{{end=\"idle\"}} {idle}
panel3270_session_ends_total{{end=\"no-agreement\"}} {no_agreement}
panel3270_session_ends_total{{end=\"ended-by-application\"}} {by_application}
# HELP panel3270_turned_away_total Connections closed at once because no number was free.
# TYPE panel3270_turned_away_total counter
panel3270_turned_away_total {turned_away}
# HELP panel3270_rejections_total Rejected requests for an LU, by reason.
# TYPE panel3270_rejections_total counter
"
        )?;
        for (reason, count) in REJECTIONS.iter().zip(&self.rejected) {
            write!(
                f,
                "panel3270_rejections_total{{reason=\"{reason}\"}} {count}\n"
            )?;
        }
        Ok(())
    }

    /// Adds the metrics of keys, screens and bytes.
    fn put_traffic<W: fmt::Write>(&self, f: &mut fmt::Formatter<W>) -> fmt::Result {
        let (dropped_keys, rule_breaks) = (self.dropped_keys, self.rule_breaks);
        let restored_screens = self.restored_screens;
        let (turns, paints) = (self.turns, self.paints);
        let (received, sent) = (self.received, self.sent);
        write!(
            f,
            "# HELP panel3270_dropped_keys_total Keys that were dropped because the last one wasn't answered yet.
# TYPE panel3270_dropped_keys_total counter
panel3270_dropped_keys_total {dropped_keys}
# HELP panel3270_rule_breaks_total Terminals that broke a rule that the host verifies.
# TYPE panel3270_rule_breaks_total counter
panel3270_rule_breaks_total {rule_breaks}
# HELP panel3270_restored_screens_total Screens that were painted over because a client's data couldn't be believed.
# TYPE panel3270_restored_screens_total counter
panel3270_restored_screens_total {restored_screens}
# HELP panel3270_turns_total Screens sent after the first one of a connection.
# TYPE panel3270_turns_total counter
panel3270_turns_total {turns}
# HELP panel3270_paints_total Screens sent.
# TYPE panel3270_paints_total counter
panel3270_paints_total {paints}
# HELP panel3270_received_bytes_total Bytes received from terminals.
# TYPE panel3270_received_bytes_total counter
panel3270_received_bytes_total {received}
# HELP panel3270_sent_bytes_total Bytes sent to terminals.
# TYPE panel3270_sent_bytes_total counter
panel3270_sent_bytes_total {sent}
"
        )
    }

    /// Adds the metrics of questions to the application.
    fn put_questions<W: fmt::Write>(&self, f: &mut fmt::Formatter<W>) -> fmt::Result {
        let asked = self.asked;
        write!(
            f,
            "# HELP panel3270_questions_total Questions to the application.
# TYPE panel3270_questions_total counter
panel3270_questions_total {asked}
# HELP panel3270_question_failures_total Questions that the application didn't answer, by reason.
# TYPE panel3270_question_failures_total counter
"
        )?;
        for (reason, count) in FAILURES.iter().zip(&self.failed) {
            write!(
                f,
                "panel3270_question_failures_total{{reason=\"{reason}\"}} {count}\n"
            )?;
        }
        f.write_str(
            "# HELP panel3270_answer_seconds Time from a question to the application's answer.
# TYPE panel3270_answer_seconds histogram
",
        )?;
        let mut count: u64 = 0;
        for (bound, within) in BOUNDS.iter().zip(&self.answered) {
            count = count.saturating_add(*within);
            write!(
                f,
                "panel3270_answer_seconds_bucket{{le=\"{bound}\"}} {count}\n"
            )?;
        }
        let (seconds, millis) = (self.answer_millis / 1000, self.answer_millis % 1000);
        write!(
            f,
            "panel3270_answer_seconds_sum {seconds}.{millis:03}
panel3270_answer_seconds_count {count}
"
        )
    }
}

impl fmt::Display for MetricsPage {
    fn fmt<W: fmt::Write>(&self, f: &mut fmt::Formatter<W>) -> fmt::Result {
        self.metrics.put_sessions(f)?;
        self.metrics.put_traffic(f)?;
        self.metrics.put_questions(f)?;
        let (version, lines_dropped) = (self.version, self.lines_dropped);
        write!(
            f,
            "# HELP panel3270_log_lines_dropped_total Lines of the log dropped because nobody read those before.
# TYPE panel3270_log_lines_dropped_total counter
panel3270_log_lines_dropped_total {lines_dropped}
# HELP panel3270_build_info The program's version.
# TYPE panel3270_build_info gauge
panel3270_build_info{{version=\"{version}\"}} 1
"
        )?;
        match self.started {
            Some(seconds) => write!(
                f,
                "# HELP process_start_time_seconds Start time of the process since the Unix epoch, in seconds.
# TYPE process_start_time_seconds gauge
process_start_time_seconds {seconds}
"
            ),
            None => Ok(()),
        }
    }
}

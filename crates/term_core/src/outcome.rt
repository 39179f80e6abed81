use datastream::Sense;

/// The outcome of a command, which a response reports to the host (RFC 1647, section 10.4).
#[derive(Clone, Copy, Debug, PartialEq, Eq)]
pub enum Outcome {
    /// The command was executed: a POSITIVE response with DEVICE-END.
    DeviceEnd,
    /// The command was rejected: a NEGATIVE response with this sense.
    Refused(Sense),
}

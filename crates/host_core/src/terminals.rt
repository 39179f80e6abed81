ghost use Rattle.std.specs.Prelude.{◌≡◌};
ghost use Rattle.host_core.specs.Session.{are_verified, unheard_of};

use crate::unheard::Unheard;

/// Which terminals a host serves (our profile). What the host believes when it shows a panel depends on it.
#[derive(Clone, Copy, Debug, PartialEq, Eq)]
pub enum Terminals {
    /// Terminals that wait: after a key that sends data, nothing can be changed until a command restores the keyboard.
    Waiting,
    /// Any terminals: the wait may end early, as by x3270's Reset; then input changes or a second key is pressed.
    Any,
    /// Any terminals; to verify that they keep the rules ([`RuleBreak`](crate::RuleBreak)), the host reads the whole
    /// screen before it answers any key but Clear.
    Verified,
}

impl Terminals {
    /// What may have happened to a screen, unknown to the host, from the beginning of a connection on.
    pub(crate) fn unheard(self) -> Unheard
        ensures { result ≡ unheard_of self }
    {
        match self {
            Terminals::Waiting => Unheard::Nothing,
            Terminals::Any | Terminals::Verified => Unheard::Input,
        }
    }

    /// Whether the host verifies that these terminals keep the rules.
    pub(crate) fn are_verified(self) -> bool
        ensures { result ≡ are_verified self }
    {
        match self {
            Terminals::Waiting | Terminals::Any => false,
            Terminals::Verified => true,
        }
    }
}

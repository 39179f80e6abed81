//! Where the keys lead.
ghost use Rattle.std.specs.Prelude.{◌≡◌};
ghost use Rattle.panels.specs.Next.{next_of};

use crate::panel::Panel;
use codes3270::Aid;

/// Where a key leads.
#[derive(Clone, Copy, Debug, PartialEq, Eq)]
pub enum Next {
    /// To the panel with this index.
    Go(usize),
    /// To the application, which decides.
    Ask,
    /// Nowhere: the same panel is shown again.
    Again,
}

impl Panel {
    /// Where a key leads: `Ask` if the panel leaves it to the application; else to the panel that its table of keys
    /// names for the key; else `Again`. With `NoAid`: `Ask` if the panel asks the application at connect, else `Again`.
    pub fn next(&self, aid: Aid) -> Next
        ensures { result ≡ next_of self.now aid }
    {
        // The position of the key in `KEY_NAMES`.
        let place = match aid {
            Aid::NoAid => {
                return if self.asked_at_connect {
                    Next::Ask
                } else {
                    Next::Again
                };
            }
            Aid::Enter => 0,
            Aid::Clear => 1,
            Aid::Pa(key) => 1 + usize::from(key.get()),
            Aid::Pf(key) => 4 + usize::from(key.get()),
        };
        if self.asked.get(place).copied().unwrap_or(false) {
            return Next::Ask;
        }
        let target = self.targets.get(place).copied().flatten();
        match target {
            Some(panel) => Next::Go(panel),
            None => Next::Again,
        }
    }
}

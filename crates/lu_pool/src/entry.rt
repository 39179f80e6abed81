//! An entry of a pool: an LU and its holder.
ghost use Rattle.std.specs.Prelude.{◌≡◌, None, is_none};
ghost use Rattle.std.specs.Str.{bytes_eq};
ghost use Rattle.lu_pool.specs.Pool.{entry, is_held_by};

use tn3270e_msg::Lu;

/// An LU, and the number of the connection that holds it, if one does.
#[derive(Clone, Copy)]
pub struct Entry {
    /// The LU.
    pub lu: Lu,
    /// The number of the connection that holds the LU; `None` if it is free.
    pub holder: Option<usize>,
}

impl Entry {
    /// Whether the entry's LU has this name.
    pub fn is_of(&self, lu: Lu) -> bool
        ensures { result ≡ bytes_eq self.now.lu lu }
    {
        self.lu.as_bytes() == lu.as_bytes()
    }

    /// Whether no connection holds the LU.
    pub fn is_free(&self) -> bool
        ensures { result ≡ is_none self.now.holder }
    {
        self.holder.is_none()
    }

    /// Whether this connection holds the LU.
    pub fn is_held_by(&self, conn: usize) -> bool
        ensures { result ≡ is_held_by conn self.now.holder }
    {
        match self.holder {
            Some(holder) => holder == conn,
            None => false,
        }
    }

    /// An entry with this LU that no connection holds.
    pub fn freed(&self) -> Entry
        ensures { result ≡ entry self.now.lu None }
    {
        Entry {
            lu: self.lu,
            holder: None,
        }
    }
}

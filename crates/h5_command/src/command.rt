//! What a line of a script asks for.

use h5_model::{Edit, Hyper, Items};

/// What a line of a script asks for.
#[derive(Drop)]
pub enum Command {
    /// `group`, `dataset`, `link`, `soft`, `unlink`, `attr`, `unattr`, `write` and `resize`.
    Change(Edit),
    /// `view`.
    OpenView { path: Items<u8>, hyper: Hyper },
    /// `show`, of the view with this number.
    Show(u32),
    /// `close`, of the view with this number.
    Close(u32),
    /// `ls`.
    ListAll,
    /// `dump`.
    Dump { path: Items<u8> },
    /// `repack`.
    Repack,
    /// A line of no form.
    Unread,
}

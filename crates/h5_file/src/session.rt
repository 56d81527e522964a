//! A session: a file, and the views that are open on its arrays.

ghost use Rattle.std.specs.Prelude.{◌≡◌, ◌||◌, nat_le, length, Ok, Err, IfOk, MatchResult};
ghost use Rattle.std.specs.FinMap.{get};
ghost use Rattle.h5_model.specs.Format.Limits.{most_views, most_numbers};
ghost use Rattle.h5_model.specs.Scripts.Answers.{stored_values, view_is_lent};
ghost use Rattle.h5_model.specs.Scripts.Sessions.{IsSession};
ghost use Rattle.h5_model.specs.Views.Shown.{shows};
ghost use Rattle.h5_edit.specs.Opened.Sound.{IsSound, IsWholeFile};
ghost use Rattle.h5_edit.specs.Repacked.{IsRepackRefused};
ghost use Rattle.h5_file.specs.Session.{IsSessionRepacked, IsViewClosed, IsViewNotOpen, IsViewOpened, IsViewRefused, session_of, without_views};
ghost use Rattle.h5_file.specs.State.{created_state};

mod edits;

use crate::file::File;
use crate::open_views::OpenViews;
use crate::views::{KeptView, place_of};
use h5_edit::{HyperRef, Values};
use h5_model::{EditFault, Fixed, ViewFault, ViewNo};
use std::alloc::{AllocError, Global};
use std::marker::Model;

/// The most views that may be open at a time.
const MAX_VIEWS: usize = 1024;

/// What a view shows.
#[derive(Clone, Copy, Debug)]
pub struct Shown<'a> {
    /// The type of the cells.
    pub fixed: Fixed,
    /// The bytes of the selected cells, in row-major order, each in as many bytes as the type has.
    pub bytes: &'a [u8],
    /// Whether these bytes are lent from the image. They are where the array is compact, or contiguous with storage, and
    /// the cells are one run in it. Any other view keeps its bytes beside the image.
    pub lent: bool,
}

impl<'a> Shown<'a> {
    /// The values of the selected cells, in row-major order. Each is decoded when it is asked for. Takes no memory.
    pub fn values(&self) -> Values<'a>
        ensures { result ≡ stored_values self.now.fixed self.now.bytes.now }
    {
        Values::stored(self.fixed, self.bytes)
    }
}

/// A file with the views that are open on it. A view goes by the number of an array, not by its path. It shows the
/// selected cells of the array as it is now, after any edits.
///
/// Contracts see the file, the open views by their numbers, and the number that the next view takes. `Debug` leaves the views out.
#[derive(Drop)]
#[derive_where(Debug)]
pub struct Session {
    file: File,
    #[derive_where(skip)]
    views: OpenViews,
    /// The number of the next view.
    next: u32,
}

impl Model for Session {
    ghost use Rattle.h5_file.specs.Session.{SessionState, coded_session};

    ghost Value = { SessionState };

    ghost coded = { coded_session };

    ghost use Rattle.h5_file.specs.OpenViews.{AreViewsKept, session_state};

    ghost view = { λ s. session_state s.file s.views s.next };

    ghost invariant = { λ s. AreViewsKept s.file s.views s.next };
}

impl Session {
    /// A session of a file with an empty root group, without views.
    ///
    /// # Errors
    ///
    /// Those of [`File::create`].
    pub fn create(alloc: Global) -> Result<Session, AllocError>
        ensures created { IfOk result (λ s. s ≡ without_views created_state) }
        ensures sound { IfOk result (λ s. IsSound s.file) }
        ensures whole { IfOk result (λ s. IsWholeFile s.file) }
    {
        Ok(Session::new(File::create(alloc)?))
    }

    /// A session of this file, without views. Takes no memory.
    pub fn new(file: File) -> Session
        ensures { result ≡ without_views file }
    {
        let views = OpenViews::new(file.alloc);
        Session {
            file,
            views,
            next: 0,
        }
    }

    /// The file.
    pub fn file(&self) -> &File
        ensures file { result.now ≡ self.now.file }
        ensures sound { IsSession (session_of self.now) }
    {
        // A file holds a sound tree.
        let _image = self.file.image();
        &self.file
    }

    /// The bytes of the file; the session is given up.
    pub fn into_image(self) -> Vec<u8>
        ensures bytes { result.items ≡ self.file.image }
        ensures sound { IsSound self.file }
    {
        self.file.into_image()
    }

    /// Opens a view of the selected cells of the array at the path. Where they are not lent from the image, it takes
    /// memory for their bytes, which the view keeps until it is closed.
    ///
    /// # Errors
    ///
    /// The first of these that holds. A refusal changes nothing, and uses no number.
    ///
    /// - `Path`: the path or the selection is refused, as by [`File::runs`].
    /// - `TooManyViews`: 1024 views are open, or no number of a view is left.
    /// - `NoMemory`: memory is refused.
    pub fn open_view(&mut self, path: &[u8], hyper: &HyperRef<'_>) -> Result<ViewNo, ViewFault>
        ensures { MatchResult result (λ number.
            IsViewOpened self.old path.now hyper.now number.0 self.new) (λ e.
            IsViewRefused self.old path.now hyper.now e × (self.new ≡ self.old)) }
    {
        let number = self.next;
        let is_full = has_many(self.views.as_slice(), number);
        let view = KeptView::open(&self.file, path, hyper, number, is_full)?;
        self.views.push(view)?;
        self.next = number + 1;
        Ok(ViewNo(number))
    }

    /// Closes a view.
    ///
    /// # Errors
    ///
    /// `NoSuchView` if no open view has this number. Then nothing changes.
    pub fn close_view(&mut self, number: ViewNo) -> Result<(), ViewFault>
        ensures { MatchResult result (λ _. IsViewClosed self.old number.0 self.new) (λ e.
            IsViewNotOpen self.old number.0 e × (self.new ≡ self.old)) }
    {
        let Some(at) = place_of(self.views.as_slice(), number.0) else {
            return Err(ViewFault::NoSuchView);
        };
        let _closed = self.views.remove(at);
        Ok(())
    }

    /// What a view shows: the selected cells of its array as it is now, as the bytes in which they are stored. Takes
    /// no memory.
    ///
    /// # Errors
    ///
    /// - `NoSuchView`: no open view has this number.
    /// - `Gone`: the array was deleted.
    /// - `OutsideNow`: a selected cell is outside the sizes of the array for now.
    pub fn show(&self, number: ViewNo) -> Result<Shown<'_>, ViewFault>
        ensures shown { let showing = shows self.now.file.tree self.now.views number.0 in MatchResult result
            (λ s. showing ≡ Ok (record { fixed = s.fixed; bytes = s.bytes.now })) (λ e. showing ≡ Err e) }
        ensures lent { IfOk result (λ s.
            s.lent ≡ view_is_lent self.now.file.tree (get self.now.views number.0)) }
    {
        let views = self.views.as_slice();
        let Some(at) = place_of(views, number.0) else {
            return Err(ViewFault::NoSuchView);
        };
        let view = &views[at];
        view.show(&self.file)
    }

    /// Writes the image anew, without bytes that nothing uses. What views show stays.
    ///
    /// # Errors
    ///
    /// Those of [`File::repack`]. A refusal changes nothing.
    pub fn repack(&mut self) -> Result<(), EditFault>
        ensures { MatchResult result (λ _. IsSessionRepacked self.old self.new) (λ e.
            IsRepackRefused self.old.file e × (self.new ≡ self.old)) }
    {
        self.file.repack()
    }
}

/// Whether no more views may be open: so many are, or the numbers of views are used up.
fn has_many(views: &[KeptView], next: u32) -> bool
    ensures { result ≡ (nat_le most_views (length views.now) || nat_le most_numbers next) }
{
    views.len() >= MAX_VIEWS || next == u32::MAX
}

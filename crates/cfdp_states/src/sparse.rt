//! The view of what a list of items sees.

ghost use Rattle.std.specs.Prelude.{◌≡◌, is_none, None, [], IfOk, IfSome, OnOk, Ok};
ghost use Rattle.std.specs.Option.{option_copied};
ghost use Rattle.cfdp_actions.specs.Filestore.{blocks};
ghost use Rattle.cfdp_leases.specs.Items.{items_of};
ghost use Rattle.cfdp_states.specs.Alone.{alone};
ghost use Rattle.cfdp_states.specs.Sparse.{IsSparseViewOf, TellsSparse, TellsSparseInstall, joins_at};
ghost use Rattle.cfdp_states.specs.Views.{only};

use crate::origins::shown;
use crate::sparse_survey::survey_sparse;
use crate::view::View;
use cfdp_actions::{Filestore, Protected, Request};
use cfdp_leases::Footprint;
use cfdp_paths::{Memory, Path};
use cfdp_status::Status;
use std::alloc::Global;

/// The most blocks that a store has.
const MOST_BLOCKS: u128 = 65_536;

/// A view of what a list of items sees: of each directory whose entries the list does not name it has one entry
/// instead of them. So what it costs grows with the list, and not with the entries of a directory.
///
/// Such a view says how that list goes when it runs alone (CCSDS 727.0-B-5, filestore procedures), as a [`View`] does.
#[derive(Drop)]
pub struct SparseView<'a> {
    view: View<'a>,
}

impl<'a> SparseView<'a> {
    /// What is in the store at the leased paths, before any item, as far as the list sees it: the install of a file at
    /// the destination, if there is one, and then the requests. `None` where the view cannot be made: a store has
    /// something below a path of 8 names, or no name is left for what is not looked at. A caller asks [`View::of`]
    /// then.
    ///
    /// # Errors
    ///
    /// [`Memory`] when out of memory.
    ///
    /// Cost:
    ///
    /// - each named path: a comparison with each path that was named before it and with each rename before its item,
    ///   and a copy at each rename that moves it;
    /// - these paths and those of the footprint: they are put into path order, each once;
    /// - each of them and each of their ancestors, once: a `kind`, a `has_entries`, a `size` if that is a file, and a
    ///   look at the footprint as by [`covers`](cfdp_leases::covers);
    /// - each of them and each of their ancestors, once: an insertion at or near the end of what the view has. It is a
    ///   search for each of its names if the view keeps paths by their names;
    /// - each directory with entries that is leased exclusively: some searches among these paths, a look at each that
    ///   is below it, and a copy of each child that leads to one;
    /// - each such directory also: a `has_beside` with these children, a comparison with each rename, and a
    ///   `deepest_beside` if one of the renames moves it;
    /// - each rename, if there are at least two, and at least 128 of these paths, up to the first that renames a path
    ///   with some of these paths below it: two searches among these paths. If there is such a rename, the view keeps
    ///   paths by their names, else in path order.
    ///
    /// Without `covers`, the comparisons with renames and those of named paths it grows with the number of these paths
    /// times its logarithm.
    pub fn of<S: Filestore>(
        alloc: Global,
        store: &S,
        protected: &'a Protected,
        footprint: &Footprint,
        destination: Option<&Path>,
        requests: &[Request],
    ) -> Result<Option<SparseView<'a>>, Memory>
        ensures stated { IfOk result (λ made. IfSome made (λ it.
            let F = alone (only footprint.now (S.state store.now).filestore) [] in
            IsSparseViewOf it.view (items_of (option_copied destination.entry) requests.now) F
            (blocks F) (blocks F) 0)) }
        ensures prefixes { IfOk result (λ made. IfSome made (λ it. it.view.prefixes ≡ protected.now)) }
    {
        let paths = shown(alloc, footprint, destination, requests)?;
        let Some(extents) = survey_sparse(alloc, store, footprint, &paths, requests)? else {
            return Ok(None);
        };
        if extents.blocks() > MOST_BLOCKS {
            return Ok(None);
        }
        let view = View::begun(protected, extents);
        Ok(Some(SparseView { view }))
    }

    /// Performs the next request of the list on the view, with unlimited room, and returns its status (CCSDS
    /// 727.0-B-5, filestore procedures), as [`View::apply`] does. `None` exactly if the view can't say, and then it is
    /// as before: something is to move to a path at which nothing is, but below which the view has something.
    ///
    /// # Errors
    ///
    /// [`Memory`] when out of memory; the view is then as before.
    ///
    /// Cost: that of [`View::apply`] on what the view has. If it keeps paths by their names, it is a few searches for
    /// each name of the request's paths; a rename then moves one branch, whatever is below it, and looks at the names
    /// beside those of its two paths. If it keeps them in path order, a rename writes each path that it moves. If there
    /// are at least 128 of them, at most one rename of the list moves many.
    pub fn apply(&mut self, request: &Request) -> Result<Option<Status>, Memory>
        ensures stated { IfOk result (λ stated. IfSome stated (λ status.
            TellsSparse self.old.view self.new.view request.now status)) }
        ensures joins { IfOk result (λ stated. is_none stated ≡ joins_at self.old.view.extents request.now) }
        ensures same { result ≡ Ok None → self.new ≡ self.old }
        ensures prefixes { OnOk result (self.new.view.prefixes ≡ self.old.view.prefixes) }
    {
        if self.joins(request) {
            return Ok(None);
        }
        let status = self.view.apply(request)?;
        Ok(Some(status))
    }

    /// Installs a delivered file of at most `bound` octets at the path (CCSDS 727.0-B-5, copy file procedures), and
    /// returns whether that is allowed, as [`View::install`] does.
    ///
    /// # Errors
    ///
    /// [`Memory`] when out of memory; the view is then as before.
    pub fn install(&mut self, path: &Path, bound: u64) -> Result<bool, Memory>
        ensures stated { IfOk result (λ done. TellsSparseInstall self.old.view self.new.view path.now bound done) }
        ensures prefixes { OnOk result (self.new.view.prefixes ≡ self.old.view.prefixes) }
    {
        self.view.install(path, bound)
    }

    /// The view itself, which says what the items needed and took. If it keeps paths by their names, its
    /// [`apply`](View::apply) also returns `Memory` for a rename to a path at which it has nothing, but below which it
    /// has something.
    pub fn into_view(self) -> View<'a>
        ensures { result ≡ self.entry.view }
    {
        self.view
    }

    /// Whether something is to move to a path at which nothing is, but below which the view has something.
    fn joins(&self, request: &Request) -> bool
        ensures { result ≡ joins_at self.now.view.extents request.now }
    {
        match request {
            Request::RenameFile(_, to) => self.view.has_below(to) && !self.view.has(to),
            Request::CreateFile(_)
            | Request::DeleteFile(_)
            | Request::AppendFile(_, _)
            | Request::ReplaceFile(_, _)
            | Request::CreateDirectory(_)
            | Request::RemoveDirectory(_)
            | Request::DenyFile(_)
            | Request::DenyDirectory(_) => false,
        }
    }
}

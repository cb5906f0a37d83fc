//! Names and their numbers.
ghost use Rattle.std.specs.Prelude.{◌≡◌, ℕ, ◌<◌, ◌↔◌, [], ◌∷◌, length, Some, slice_get, IfOk, IfSome, IfNone, OnErr, IsTrue};
ghost use Rattle.cell_names.specs.Paths.{path_at, name_in, sites_of};
ghost use Rattle.cell_names.specs.Known.{Adds, IsOnce};
ghost use Rattle.cell_names.specs.declared.frame.Point.TheVariants.{Entry, Body};
ghost use Rattle.cell_names.specs.Owners.{owner};

use crate::frame::{NameFrame, Point};
use crate::near::Near;
use crate::path::{Name, PathId, PathStep};
use base_short::Short;
use base_values::{Items, Memory};
use imp_syntax::StmtId;
use state_table::StateTable;
use std::alloc::Global;
use std::marker::Model;

/// Paths and names, each under one number.
#[derive(Drop)]
pub struct Names {
    steps: StateTable<PathStep>,
    names: StateTable<Name>,
    // by the number of a name, the numbers that its inputs had last
    near: Vec<Near>,
    alloc: Global,
}

impl Model for Names {
    ghost use Rattle.cell_names.specs.Known.{Known, known_of, IsKept};

    ghost Value = { Known };

    ghost view = { λ a. known_of a.steps a.names };

    ghost invariant = { λ a. IsKept a.steps a.names };
}

impl Names {
    /// The empty path alone, and no names. It takes no memory yet.
    pub fn new(alloc: Global) -> Names
        ensures paths { result.paths ≡ [] ∷ [] }
        ensures names { result.names ≡ [] }
    {
        Names {
            steps: StateTable::new(alloc),
            names: StateTable::new(alloc),
            near: Vec::new(alloc),
            alloc,
        }
    }

    /// How many names there are.
    pub fn len(&self) -> usize
        ensures count { result ≡ length self.now.names }
    {
        self.names.len()
    }

    /// Whether there are no names.
    pub fn is_empty(&self) -> bool
        ensures empty { IsTrue result ↔ (length self.now.names ≡ 0) }
    {
        self.names.is_empty()
    }

    /// The path that goes on from another one by a frame, with a new number where it had none.
    #[inline]
    pub fn add_path(&mut self, before: PathId, frame: NameFrame) -> Result<PathId, Memory>
        requires there { before < length self.old.paths }
        ensures path { IfOk result (Adds self.old.paths self.new.paths
            (frame ∷ path_at self.old.paths before)) }
        ensures names { self.new.names ≡ self.old.names }
        ensures err { OnErr result (self.new ≡ self.old) }
    {
        let frames = Short::with_first(self.alloc, frame, self.frames_of(before))?;
        let number = self.steps.intern(PathStep { before, frames })?;
        Ok(PathId::after(number))
    }

    // the frames of a path, the last one first
    #[inline]
    fn frames_of(&self, path: PathId) -> &[NameFrame]
        requires there { path < length self.now.paths }
        ensures are { result.now ≡ path_at self.now.paths path }
    {
        let steps = &self.steps;
        if path.number() == 0 {
            return &[];
        }
        let step = steps.get(path.number() - 1);
        step.frames.as_slice()
    }

    /// The number of a name, or `None` where it has none. It takes no memory.
    #[inline]
    pub fn find(&self, name: &Name) -> Option<usize>
        requires there { name.now.path < length self.now.paths }
        ensures name { IfSome result (λ n. slice_get self.now.names n ≡
            Some (name_in self.now.paths name.now)) }
        ensures found { (n : ℕ) → slice_get self.now.names n ≡
            Some (name_in self.now.paths name.now) → result ≡ Some n }
    {
        self.names.find(name)
    }

    /// The number of a name, a new one where it had none.
    #[inline]
    pub fn add(&mut self, name: Name) -> Result<usize, Memory>
        requires there { name.path < length self.old.paths }
        ensures name { IfOk result (Adds self.old.names self.new.names
            (name_in self.old.paths name)) }
        ensures paths { self.new.paths ≡ self.old.paths }
        ensures err { OnErr result (self.new ≡ self.old) }
    {
        let Name { path, point } = name;
        let number = self.names.intern(Name { path, point })?;
        Ok(number)
    }

    /// The same for the input at a place of the name that has a number. It is fast where that was asked for before.
    #[inline(always)]
    pub fn add_input(&mut self, name: Name, of: usize, place: usize) -> Result<usize, Memory>
        requires there { name.path < length self.old.paths }
        ensures name { IfOk result (Adds self.old.names self.new.names
            (name_in self.old.paths name)) }
        ensures paths { self.new.paths ≡ self.old.paths }
        ensures err { OnErr result (self.new ≡ self.old) }
    {
        if let Some(number) = self.noted_number(&name, of, place) {
            return Ok(number);
        }
        let number = self.add(name)?;
        self.note(of, place, number);
        Ok(number)
    }

    // the number that is noted, where it is this name's
    #[inline]
    fn noted_number(&self, name: &Name, of: usize, place: usize) -> Option<usize>
        ensures is { IfSome result (λ n. slice_get self.now.names n ≡
            Some (name_in self.now.paths name.now)) }
    {
        let number = self.near.get(of)?.at(place);
        if number >= self.len() {
            return None;
        }
        let found = self.get(number);
        if found == *name { Some(number) } else { None }
    }

    // notes a number, where there is memory: room is made for half as many names more than there are
    #[inline]
    fn note(&mut self, of: usize, place: usize, number: usize)
        ensures same { self.new ≡ self.old }
    {
        if of >= self.near.len() {
            let count = self.names.len();
            let _ = self
                .near
                .resize(count.saturating_add(count / 2), Near::new());
        }
        if let Some(near) = self.near.get_mut(of) {
            *near = near.with(place, number);
        }
    }

    /// The name that has a number.
    #[inline]
    pub fn get(&self, number: usize) -> Name
        requires there { number < length self.now.names }
        ensures name { slice_get self.now.names number ≡ Some (name_in self.now.paths result) }
        ensures path { result.path < length self.now.paths }
    {
        *self.names.get(number)
    }

    /// A path's last frame, and the path before it; `None` for the empty path.
    #[inline]
    pub fn last_frame(&self, path: PathId) -> Option<(PathId, NameFrame)>
        requires there { path < length self.now.paths }
        ensures empty { IfNone result (path_at self.now.paths path ≡ []) }
        ensures last { IfSome result (λ r. path_at self.now.paths path ≡
            r.1 ∷ path_at self.now.paths r.0) }
        ensures before { IfSome result (λ r. r.0 < path) }
    {
        let steps = &self.steps;
        if path.number() == 0 {
            return None;
        }
        let step = steps.get(path.number() - 1);
        let frames = step.frames.as_slice();
        Some((step.before, frames[0]))
    }

    /// The call sites of a path, the last one first. It takes as many steps as the path has frames.
    pub fn sites(&self, alloc: Global, path: PathId) -> Result<Items<StmtId>, Memory>
        requires there { path < length self.now.paths }
        ensures sites { IfOk result (λ sites. sites ≡ sites_of (path_at self.now.paths path)) }
    {
        let mut sites = Items::new(alloc);
        let mut rest = path;
        while let Some((before, frame)) = self.last_frame(rest) {
            if let NameFrame::InCall(site) = frame {
                sites.push(site)?;
            }
            rest = before;
        }
        Ok(sites)
    }

    // the call whose frame ends a path, or 0
    #[inline]
    fn site_of(&self, path: PathId) -> u32
        requires there { path < length self.now.paths }
        ensures is { result ≡ owner (path_at self.now.paths path) Entry }
    {
        match self.last_frame(path) {
            Some((_, frame)) => match frame {
                NameFrame::InCall(call) => call.number(),
                NameFrame::InLoop(_, _) => 0,
            },
            None => 0,
        }
    }

    // the loop whose frame ends a path, or 0
    #[inline]
    fn head_of(&self, path: PathId) -> u32
        requires there { path < length self.now.paths }
        ensures is { result ≡ owner (path_at self.now.paths path) Body }
    {
        match self.last_frame(path) {
            Some((_, frame)) => match frame {
                NameFrame::InLoop(head, _) => head.number(),
                NameFrame::InCall(_) => 0,
            },
            None => 0,
        }
    }

    /// The number of the statement that a name belongs to: with the path it alone tells the name's row.
    /// The start of `main` belongs to 0, which is no statement's number.
    #[inline]
    pub fn owner(&self, name: &Name) -> u32
        requires there { name.now.path < length self.now.paths }
        ensures is { result ≡ owner (path_at self.now.paths name.now.path) name.now.point }
    {
        match name.point {
            Point::Entry => self.site_of(name.path),
            Point::Body => self.head_of(name.path),
            Point::Then(stmt)
            | Point::Else(stmt)
            | Point::Post(stmt)
            | Point::Iterate(stmt, _)
            | Point::Fix(stmt)
            | Point::Exit(stmt)
            | Point::Leap(stmt, _) => stmt.number(),
        }
    }

    /// A path has one number, and a name has one number.
    pub fn numbers_are_one(&self)
        ensures paths { IsOnce self.now.paths }
        ensures names { IsOnce self.now.names }
    {
        let _steps = &self.steps;
    }
}

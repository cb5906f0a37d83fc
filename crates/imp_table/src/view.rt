//! Programs as they are read by the numbers of their statements.
ghost use Rattle.std.specs.Prelude.{◌≡◌, ◌<◌, ◌≤◌, [], List, length, slice_get, option_map, IfOk, None};
ghost use Rattle.std.specs.Option.{option_copied};
ghost use Rattle.imp_syntax.specs.Plain.{Procedure};
ghost use Rattle.imp_slots.specs.Fits.{IsChecked};
ghost use Rattle.imp_check.specs.Names.{named_in};
ghost use Rattle.imp_check.specs.Programs.{AreNumbered, check_fault, program_count};
ghost use Rattle.imp_check.specs.Slots.{layout_in, routines_of};
ghost use Rattle.imp_check.specs.Parts.{ends_of};
ghost use Rattle.imp_check.specs.Entries.{entries_of, entry_of, heads_of, sites_in};
ghost use Rattle.imp_table.specs.Views.{AreRead};
ghost use Rattle.imp_check.specs.Walks.{numbers_at};

use crate::change::Put;
use crate::places::put_of;
use crate::table::Table;
use crate::walk::add_block;
use base_values::{Items, Memory, Text};
use imp_check::{BlockEnds, Entry, ProcHeader, is_headed, place_headed};
use imp_slots::Layout;
use imp_syntax::{ProcId, StmtId};
use std::alloc::Global;
use std::marker::Model;

/// A program as it is read: that of a table, or the one that a change makes of it, with the change put over the table and
/// nothing copied. It is seen as its procedures.
#[derive(Drop)]
pub struct View<'a> {
    table: &'a Table,
    puts: &'a [Put],
    heads: &'a [ProcHeader],
    count: u32,
    sites: &'a [Items<StmtId>],
}

impl<'a> Model for View<'a> {
    ghost use Rattle.std.specs.Prelude.{List};
    ghost use Rattle.imp_syntax.specs.Plain.{Procedure};
    ghost use Rattle.imp_syntax.specs.ProgramCode.{program_code};
    ghost use Rattle.imp_table.specs.Views.{AreRead, program_over};

    ghost Value = { List Procedure };

    ghost coded = { program_code };

    ghost view = { λ a. program_over a.table.now.program a.puts.now a.count a.heads.now };

    ghost invariant = { λ a. AreRead a.table.now.program a.puts.now a.count a.heads.now a.sites.now
        (program_over a.table.now.program a.puts.now a.count a.heads.now) };
}

impl<'a> View<'a> {
    /// The program of these parts.
    #[inline]
    pub(crate) fn new(
        table: &'a Table,
        puts: &'a [Put],
        heads: &'a [ProcHeader],
        count: u32,
        sites: &'a [Items<StmtId>],
    ) -> View<'a>
        ghost program: { List Procedure }
        requires right { AreRead table.now.program puts.now count heads.now sites.now program }
        ensures is { result ≡ program }
    {
        View {
            table,
            puts,
            heads,
            count,
            sites,
        }
    }

    /// The statement of a number, with where it stands and with its slots, or `None` where the program has no such
    /// statement. It takes constant time, or where a change stands over the table, time logarithmic in the change.
    #[inline]
    pub fn entry(&self, id: StmtId) -> Option<&'a Entry>
        ensures is { option_copied result ≡ entry_of (entries_of self.now) id }
    {
        match put_of(self.puts, id.number()) {
            Some(put) => put.entry.entry(),
            None => self.table.entry(id),
        }
    }

    /// The procedures without their statements, in the order of the text. They have no fault, their numbers stand once,
    /// and over slots they fit.
    pub fn procs(&self) -> &'a [ProcHeader]
        ensures are { result.now ≡ heads_of self.now }
        ensures faultless { check_fault self.now ≡ None }
        ensures numbered { AreNumbered self.now }
        ensures fit { IsChecked (routines_of self.now) }
    {
        self.heads
    }

    /// A procedure without its statements, or `None` where there is no such procedure.
    #[inline]
    pub fn head(&self, proc: ProcId) -> Option<&'a ProcHeader>
        ensures is { option_copied result ≡ slice_get (heads_of self.now) proc }
    {
        self.procs().get(proc.place() as usize)
    }

    /// How many statements the program has.
    pub fn count(&self) -> u32
        ensures is { result ≡ program_count self.now }
    {
        self.count
    }

    /// The call statements of a procedure, in the order of the text; none for a procedure that is not there. It takes
    /// constant time.
    pub fn sites(&self, proc: ProcId) -> &'a [StmtId]
        ensures is { proc < length self.now → result.now ≡ sites_in (entries_of self.now) proc }
        ensures none { length self.now ≤ proc → result.now ≡ [] }
    {
        match self.sites.get(proc.place() as usize) {
            Some(sites) => sites.as_slice(),
            None => &[],
        }
    }

    /// The ends of a procedure's body, or `None` where there is no such procedure.
    #[inline]
    pub fn body(&self, proc: ProcId) -> Option<BlockEnds>
        ensures is { result ≡ option_map (λ (p : Procedure). ends_of p.body)
            (slice_get self.now proc) }
    {
        match self.head(proc) {
            Some(head) => Some(head.body),
            None => None,
        }
    }

    /// The variables of a procedure as slots, or `None` where there is no such procedure.
    #[inline]
    pub fn layout(&self, proc: ProcId) -> Option<&'a Layout>
        ensures is { option_copied result ≡ option_map layout_in (slice_get self.now proc) }
    {
        match self.head(proc) {
            Some(head) => Some(&head.layout),
            None => None,
        }
    }

    /// The first procedure of a name, or `None` where there is none. It takes time linear in the procedures.
    pub fn proc_named(&self, name: &Text) -> Option<ProcId>
        ensures is { result ≡ named_in self.now name.now }
    {
        let heads = self.procs();
        if is_headed(heads, name) {
            Some(ProcId::new(place_headed(heads, name) as u32))
        } else {
            None
        }
    }

    /// The statements of a procedure, in the order of the text; none for a procedure that is not there. It takes time
    /// linear in the procedure, and fails only when memory runs out.
    #[tactic(auto, using(imp_check::proofs::FewLemmas::few_statements, imp_check::proofs::WalkLemmas::walk_at, imp_check::proofs::WalkLemmas::walk_past))]
    pub fn statements(&self, alloc: Global, proc: ProcId) -> Result<Items<StmtId>, Memory>
        ensures are { IfOk result (λ stmts. stmts ≡ numbers_at self.now proc) }
    {
        self.procs();
        let most = self.count() + 1;
        let mut found = Items::new(alloc);
        match self.body(proc) {
            Some(ends) => {
                add_block(self, most, ends.first, &mut found)?;
                Ok(found)
            }
            None => Ok(found),
        }
    }
}

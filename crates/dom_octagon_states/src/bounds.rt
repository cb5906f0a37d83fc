//! The matrices of states, narrow wherever they fit.
ghost use Rattle.std.specs.Prelude.{◌≡◌, ◌<◌, ◌^◌, true, IfOk};
ghost use Rattle.dbm_core.specs.Half.{IsMatrix, entry, nodes};
ghost use Rattle.dbm_core.specs.Limits.{AreWithin};
ghost use Rattle.dbm_close.specs.declared.closed.Closed.TheVariants as closed;
ghost use Rattle.dbm_incremental.specs.ClosedMatrices.{IsClosed, IsWhole};
ghost use Rattle.dbm_incremental.specs.Steps.{AreBounds, ClosesAllLowered};
ghost use Rattle.dbm_core.specs.Same.{same_matrix, same_matrix-equiv, same_matrix-hash};
ghost use Rattle.dbm_narrow.specs.Feeding.{matrix_fed};
ghost use Rattle.std.specs.Cmp.{partial_equiv_from_equiv};

use base_values::Memory;
use dbm_core::Matrix;
use dbm_incremental::Bound;
use dbm_narrow::{Narrow, narrowed, refitted, widened};
use std::alloc::Global;
use std::hash::{Hash, Hasher};
use std::marker::Model;
use std::rc::Rc;

/// Bounds on the values of at most 16 slots: a matrix of `dbm_core` whose bounds lie from -2^104 to 2^104,
/// in four bytes an entry where all bounds fit these, else in sixteen. Copies share the entries.
#[derive(Drop)]
pub struct Bounds {
    pub(crate) held: Held,
}

/// The form of a matrix. One that fits the narrow form is never held in the wide one.
#[derive(Drop)]
pub enum Held {
    /// Each bound lies from -2^25 to 2^25.
    Small(Rc<Narrow<i32>>),
    /// Some bound does not; each lies from -2^104 to 2^104.
    Large(Rc<Narrow<i128>>),
}

impl Model for Bounds {
    ghost use Rattle.dbm_core.specs.Half.{HalfMatrix};
    ghost use Rattle.dom_octagon_states.specs.Held.{IsHeld, matrix_held};

    ghost Value = { HalfMatrix };

    ghost view = { λ a. matrix_held a.held };

    ghost invariant = { λ a. IsHeld a.held };
}

/// Two matrices are equal where their kinds and their entries are.
impl PartialEq for Bounds {
    ghost eq = { same_matrix };

    ghost laws = { partial_equiv_from_equiv same_matrix-equiv };

    fn eq(&self, other: &Bounds) -> bool {
        match (&self.held, &other.held) {
            (Held::Small(a), Held::Small(b)) => *a.as_ref() == *b.as_ref(),
            (Held::Large(a), Held::Large(b)) => *a.as_ref() == *b.as_ref(),
            (Held::Small(a), Held::Large(_)) => {
                let _kinds = a.as_ref().kinds();
                false
            }
            (Held::Large(_), Held::Small(b)) => {
                let _kinds = b.as_ref().kinds();
                false
            }
        }
    }
}

impl Eq for Bounds {
    ghost laws = { same_matrix-equiv };
}

impl Hash for Bounds {
    ghost hash_input = { matrix_fed };

    ghost respects_eq = { same_matrix-hash matrix_fed };

    fn hash<H: Hasher>(&self, state: &mut H) {
        match &self.held {
            Held::Small(narrow) => narrow.as_ref().hash(state),
            Held::Large(matrix) => matrix.as_ref().hash(state),
        }
    }
}

impl Bounds {
    /// The kinds of the slots: true for an array's length.
    pub fn kinds(&self) -> &[bool]
        ensures value { result.now ≡ self.now.kinds }
        ensures matrix { IsMatrix self.now }
    {
        match &self.held {
            Held::Small(narrow) => narrow.as_ref().kinds(),
            Held::Large(matrix) => matrix.as_ref().kinds(),
        }
    }

    /// The bound on `v_j - v_i`, `None` where there is none. It takes no memory.
    pub fn get(&self, i: usize, j: usize) -> Option<i128>
        requires row { i < nodes self.now }
        requires column { j < nodes self.now }
        ensures bound { result ≡ entry self.now i j }
    {
        match &self.held {
            Held::Small(narrow) => narrow.as_ref().get(i, j),
            Held::Large(matrix) => matrix.as_ref().get(i, j),
        }
    }

    /// The same matrix, which shares its entries.
    pub fn copy(&self) -> Result<Bounds, Memory>
        ensures same { IfOk result (λ m. m ≡ self.now) }
    {
        match &self.held {
            Held::Small(narrow) => {
                let narrow = narrow.clone()?;
                Ok(Bounds {
                    held: Held::Small(narrow),
                })
            }
            Held::Large(matrix) => {
                let matrix = matrix.clone()?;
                Ok(Bounds {
                    held: Held::Large(matrix),
                })
            }
        }
    }

    /// Whether a closed matrix that obeys the triangle law has each of the bounds anyway: closing it with
    /// them gives it again.
    pub fn meets(&self, bounds: &[Bound]) -> bool
        requires bounds { AreBounds (nodes self.now) bounds.now }
        requires closed { IsClosed self.now }
        requires whole { IsWhole self.now }
        ensures met { result ≡ true
            → ClosesAllLowered self.now bounds.now (closed.Matrix self.now) }
    {
        match &self.held {
            Held::Small(narrow) => dbm_narrow::meets(narrow.as_ref(), bounds),
            Held::Large(wide) => dbm_narrow::meets(wide.as_ref(), bounds),
        }
    }
}

/// The narrow matrix.
pub fn small(alloc: Global, narrow: Narrow<i32>) -> Result<Bounds, Memory>
    ensures same { IfOk result (λ m. m ≡ narrow) }
{
    let narrow = Rc::new(alloc, narrow)?;
    Ok(Bounds {
        held: Held::Small(narrow),
    })
}

/// The wide matrix, in the narrow form where it fits.
pub fn hold(alloc: Global, wide: Narrow<i128>) -> Result<Bounds, Memory>
    ensures same { IfOk result (λ m. m ≡ wide) }
{
    match refitted::<i128, i32>(alloc, &wide)? {
        Some(narrow) => small(alloc, narrow),
        None => {
            let wide = Rc::new(alloc, wide)?;
            Ok(Bounds {
                held: Held::Large(wide),
            })
        }
    }
}

/// A narrow matrix in wide entries, which each narrow one fits.
pub fn large(alloc: Global, narrow: &Narrow<i32>) -> Result<Narrow<i128>, Memory>
    ensures same { IfOk result (λ n. n ≡ narrow.now) }
{
    let _kinds = narrow.kinds();
    match refitted::<i32, i128>(alloc, narrow)? {
        Some(wide) => Ok(wide),
        None => unreachable!(),
    }
}

/// The matrix, in the narrow form where it fits.
pub fn bounds_of(alloc: Global, matrix: Matrix) -> Result<Bounds, Memory>
    requires within { AreWithin (nodes matrix) (2 ^ 70) (entry matrix) }
    ensures same { IfOk result (λ m. m ≡ matrix) }
{
    match narrowed::<i32>(alloc, &matrix)? {
        Some(narrow) => small(alloc, narrow),
        None => match narrowed::<i128>(alloc, &matrix)? {
            Some(wide) => {
                let wide = Rc::new(alloc, wide)?;
                Ok(Bounds {
                    held: Held::Large(wide),
                })
            }
            None => unreachable!(),
        },
    }
}

/// The same matrix in the entries of `dbm_core`, to be written to.
pub fn matrix_of_bounds(alloc: Global, m: &Bounds) -> Result<Matrix, Memory>
    ensures same { IfOk result (λ n. n ≡ m.now) }
{
    match &m.held {
        Held::Small(narrow) => widened(alloc, narrow.as_ref()),
        Held::Large(wide) => widened(alloc, wide.as_ref()),
    }
}

//! The inputs of a row.
ghost use Rattle.std.specs.Prelude.{◌≡◌, ◌<◌, length, IfOk, OnErr};
ghost use Rattle.cell_names.specs.Paths.{path_at, name_in};
ghost use Rattle.cell_names.specs.Known.{KeepsNumbers};
ghost use Rattle.imp_flow_rows.specs.declared.input.Way.TheVariants.{Here, Out, Into};
ghost use Rattle.imp_flow_rows.specs.Near.{outside, near, input_name};

use base_values::Memory;
use cell_names::{Name, NameFrame, Names, PathId, Point};

/// Which path an input has, from the one of the name whose input it is.
#[derive(Clone, Copy, Debug, PartialEq, Eq)]
pub enum Way {
    /// The same.
    Here,
    /// The one without its last frame.
    Out,
    /// The one with a further frame.
    Into(NameFrame),
}

/// An input of a row: a path, and a point there.
#[derive(Clone, Copy, Debug, PartialEq, Eq)]
pub struct Input {
    pub way: Way,
    pub point: Point,
}

impl Input {
    /// A point in the same path.
    #[inline]
    pub(crate) fn here(point: Point) -> Input
        ensures is { result ≡ record { way = Here; point = point } }
    {
        Input {
            way: Way::Here,
            point,
        }
    }

    /// A point in the path without its last frame.
    #[inline]
    pub(crate) fn out(point: Point) -> Input
        ensures is { result ≡ record { way = Out; point = point } }
    {
        Input {
            way: Way::Out,
            point,
        }
    }

    /// A point in the path with a further frame.
    #[inline]
    pub(crate) fn inside(frame: NameFrame, point: Point) -> Input
        ensures is { result ≡ record { way = Into frame; point = point } }
    {
        Input {
            way: Way::Into(frame),
            point,
        }
    }

    /// The input's name, of a row of a name with this path. A path that has no number yet gets one. It takes constant
    /// time.
    ///
    /// # Errors
    ///
    /// [`Memory`]: then the names are as before.
    #[inline]
    pub fn name(self, names: &mut Names, path: PathId) -> Result<Name, Memory>
        requires there { path < length names.old.paths }
        ensures is { IfOk result (λ x. name_in names.new.paths x ≡
            input_name (path_at names.old.paths path) self) }
        ensures within { IfOk result (λ x. x.path < length names.new.paths) }
        ensures kept { KeepsNumbers names.old.paths names.new.paths }
        ensures names { names.new.names ≡ names.old.names }
        ensures err { OnErr result (names.new ≡ names.old) }
    {
        let Input { way, point } = self;
        let path = near(names, path, way)?;
        Ok(Name { path, point })
    }
}

/// A path without its last frame; the empty path stays.
#[inline]
fn outside(names: &Names, path: PathId) -> PathId
    requires there { path < length names.now.paths }
    ensures is { path_at names.now.paths result ≡ outside (path_at names.now.paths path) }
    ensures within { result < length names.now.paths }
{
    match names.last_frame(path) {
        None => path,
        Some((before, _)) => before,
    }
}

/// The path of an input.
#[inline]
fn near(names: &mut Names, path: PathId, way: Way) -> Result<PathId, Memory>
    requires there { path < length names.old.paths }
    ensures is { IfOk result (λ p. path_at names.new.paths p ≡
        near (path_at names.old.paths path) way) }
    ensures within { IfOk result (λ p. p < length names.new.paths) }
    ensures kept { KeepsNumbers names.old.paths names.new.paths }
    ensures names { names.new.names ≡ names.old.names }
    ensures err { OnErr result (names.new ≡ names.old) }
{
    match way {
        Way::Here => Ok(path),
        Way::Out => Ok(outside(names, path)),
        Way::Into(frame) => names.add_path(path, frame),
    }
}

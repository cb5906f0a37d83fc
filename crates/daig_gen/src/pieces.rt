//! The pieces that a source is made of, as text.
ghost use Rattle.std.specs.Prelude.{◌≡◌, ◌≤◌, ◌++◌, OnOk};
ghost use Rattle.std.specs.Fmt.{decimal};
ghost use Rattle.daig_gen.specs.Pieces.{kind_of, statements_of, variable_text, constant_text, copy_text, sum_text, difference_text, while_text, if_text, array_text, input_text, node_text};

use itoa::Buffer;
use std::alloc::AllocError;

/// What a piece of a source is, as the definitions of generated texts speak of it.
#[derive(Clone, Copy)]
pub enum PieceKind {
    /// A constant is assigned.
    Constant,
    /// A variable and a constant are added.
    Sum,
    /// A variable is subtracted.
    Difference,
    /// A loop counts a variable up to a constant.
    While,
    /// One of two assignments is taken.
    If,
    /// An array is made.
    Array,
    /// A variable is read.
    Input,
    /// A node is put before a list.
    Node,
}

impl PieceKind {
    /// The kind that a number below 8 stands for.
    #[tactic(auto, unfolding(crate::specs::Pieces::kind_of))]
    pub(crate) fn of(number: u64) -> PieceKind
        ensures kind { result ≡ kind_of number }
    {
        match number {
            0 => PieceKind::Constant,
            1 => PieceKind::Sum,
            2 => PieceKind::Difference,
            3 => PieceKind::While,
            4 => PieceKind::If,
            5 => PieceKind::Array,
            6 => PieceKind::Input,
            _ => PieceKind::Node,
        }
    }

    /// How many statements such a piece has, those within its braces among them.
    pub(crate) fn statements(self) -> u64
        ensures count { result ≡ statements_of self }
        ensures some { 1 ≤ result }
        ensures few { result ≤ 3 }
    {
        match self {
            PieceKind::Constant
            | PieceKind::Sum
            | PieceKind::Difference
            | PieceKind::Array
            | PieceKind::Input => 1,
            PieceKind::While => 2,
            PieceKind::If | PieceKind::Node => 3,
        }
    }
}

/// Adds a number in decimal.
pub(crate) fn put_number(text: &mut Vec<u8>, number: u64) -> Result<(), AllocError>
    ensures added { OnOk result (text.new.items ≡ text.old.items ++ decimal number) }
{
    let mut buffer = Buffer::new();
    text.extend_from_slice(buffer.format(number).as_bytes())
}

/// Adds a variable.
#[tactic(auto, unfolding(crate::specs::Pieces::variable_text), using(base_values::proofs::Joined::joined_2))]
fn put_variable(text: &mut Vec<u8>, x: u64) -> Result<(), AllocError>
    ensures added { OnOk result (text.new.items ≡ text.old.items ++ variable_text x) }
{
    text.extend_from_slice(b"v")?;
    put_number(text, x)
}

/// Adds `vX = C;`.
#[tactic(auto, unfolding(crate::specs::Pieces::constant_text), using(base_values::proofs::Joined::joined_4))]
pub(crate) fn put_constant(text: &mut Vec<u8>, x: u64, c: u64) -> Result<(), AllocError>
    ensures added { OnOk result (text.new.items ≡ text.old.items ++ constant_text x c) }
{
    put_variable(text, x)?;
    text.extend_from_slice(b" = ")?;
    put_number(text, c)?;
    text.extend_from_slice(b";")
}

/// Adds `vX = vY;`.
#[tactic(auto, unfolding(crate::specs::Pieces::copy_text), using(base_values::proofs::Joined::joined_4))]
fn put_copy(text: &mut Vec<u8>, x: u64, y: u64) -> Result<(), AllocError>
    ensures added { OnOk result (text.new.items ≡ text.old.items ++ copy_text x y) }
{
    put_variable(text, x)?;
    text.extend_from_slice(b" = ")?;
    put_variable(text, y)?;
    text.extend_from_slice(b";")
}

/// Adds `vX = vY + C;`.
#[tactic(auto, unfolding(crate::specs::Pieces::sum_text), using(base_values::proofs::Joined::joined_6))]
pub(crate) fn put_sum(text: &mut Vec<u8>, x: u64, y: u64, c: u64) -> Result<(), AllocError>
    ensures added { OnOk result (text.new.items ≡ text.old.items ++ sum_text x y c) }
{
    put_variable(text, x)?;
    text.extend_from_slice(b" = ")?;
    put_variable(text, y)?;
    text.extend_from_slice(b" + ")?;
    put_number(text, c)?;
    text.extend_from_slice(b";")
}

/// Adds `vX = vY - vZ;`.
#[tactic(auto, unfolding(crate::specs::Pieces::difference_text), using(base_values::proofs::Joined::joined_6))]
pub(crate) fn put_difference(text: &mut Vec<u8>, x: u64, y: u64, z: u64) -> Result<(), AllocError>
    ensures added { OnOk result (text.new.items ≡ text.old.items ++ difference_text x y z) }
{
    put_variable(text, x)?;
    text.extend_from_slice(b" = ")?;
    put_variable(text, y)?;
    text.extend_from_slice(b" - ")?;
    put_variable(text, z)?;
    text.extend_from_slice(b";")
}

/// Adds `while (vX < C) { vX = vX + 1; }`.
#[tactic(auto, unfolding(crate::specs::Pieces::while_text), using(base_values::proofs::Joined::joined_7))]
pub(crate) fn put_while(text: &mut Vec<u8>, x: u64, c: u64) -> Result<(), AllocError>
    ensures added { OnOk result (text.new.items ≡ text.old.items ++ while_text x c) }
{
    text.extend_from_slice(b"while (")?;
    put_variable(text, x)?;
    text.extend_from_slice(b" < ")?;
    put_number(text, c)?;
    text.extend_from_slice(b") { ")?;
    put_sum(text, x, x, 1)?;
    text.extend_from_slice(b" }")
}

/// Adds `if (vX < vY) { vX = vY; } else { vY = C; }`.
#[tactic(auto, unfolding(crate::specs::Pieces::if_text), using(base_values::proofs::Joined::joined_9))]
pub(crate) fn put_if(text: &mut Vec<u8>, x: u64, y: u64, c: u64) -> Result<(), AllocError>
    ensures added { OnOk result (text.new.items ≡ text.old.items ++ if_text x y c) }
{
    text.extend_from_slice(b"if (")?;
    put_variable(text, x)?;
    text.extend_from_slice(b" < ")?;
    put_variable(text, y)?;
    text.extend_from_slice(b") { ")?;
    put_copy(text, x, y)?;
    text.extend_from_slice(b" } else { ")?;
    put_constant(text, y, c)?;
    text.extend_from_slice(b" }")
}

/// Adds `a = array C;`.
#[tactic(auto, unfolding(crate::specs::Pieces::array_text), using(base_values::proofs::Joined::joined_3))]
pub(crate) fn put_array(text: &mut Vec<u8>, c: u64) -> Result<(), AllocError>
    ensures added { OnOk result (text.new.items ≡ text.old.items ++ array_text c) }
{
    text.extend_from_slice(b"a = array ")?;
    put_number(text, c)?;
    text.extend_from_slice(b";")
}

/// Adds `vX = input;`.
#[tactic(auto, unfolding(crate::specs::Pieces::input_text), using(base_values::proofs::Joined::joined_2))]
pub(crate) fn put_input(text: &mut Vec<u8>, x: u64) -> Result<(), AllocError>
    ensures added { OnOk result (text.new.items ≡ text.old.items ++ input_text x) }
{
    put_variable(text, x)?;
    text.extend_from_slice(b" = input;")
}

/// Adds `p = new; p.next = q; q = p;`.
#[tactic(auto, unfolding(crate::specs::Pieces::node_text))]
pub(crate) fn put_node(text: &mut Vec<u8>) -> Result<(), AllocError>
    ensures added { OnOk result (text.new.items ≡ text.old.items ++ node_text) }
{
    text.extend_from_slice(b"p = new; p.next = q; q = p;")
}

//! What words can ask for: the values of [`read_words`](crate::read_words), which its clause `job`
//! speaks of.
ghost use Rattle.std.specs.Prelude.{◌≡◌, IfOk};

use base_values::Memory;
use imp_chains::Widening;
use std::alloc::Global;
use std::marker::Model;

/// What the words ask for.
#[derive(Debug, Drop)]
pub enum Job {
    /// A task for the program of a file.
    File {
        /// The program's file.
        file: FileName,
        /// What is done for it.
        task: Task,
    },
    /// A generated script over a generated program, summed up.
    Gen {
        /// What the draws begin with, below 2^63.
        seed: u64,
        /// How many pieces and turns are drawn, 1 to 1,000.
        size: u32,
        /// What is known of variables.
        domain: DomainName,
    },
}

/// What is done for the program of a file.
#[derive(Debug, Drop)]
pub enum Task {
    /// The lines of a script are answered.
    Serve {
        /// How the program is analysed.
        settings: AnalysisOptions,
        /// How many results are remembered, 1 to 65,536.
        memo: u32,
    },
    /// The program and its report, worked out afresh, are written.
    Batch {
        /// How the program is analysed.
        settings: AnalysisOptions,
    },
    /// What is known of every fault that a run can end with is written.
    Faults {
        /// How the program is analysed.
        settings: AnalysisOptions,
    },
    /// The states at the heads of its loops are written, as the lines of a certificate.
    Cert {
        /// What is known of variables.
        domain: SingleDomain,
        /// How loops are widened; the delay is 0 to 100.
        widening: Widening,
        /// How many iterates a loop may take, 1 to 10,000.
        budget: u32,
    },
    /// Whether a certificate of it holds is written.
    Verify {
        /// What is known of variables.
        domain: SingleDomain,
        /// The certificate's file.
        cert: FileName,
    },
}

/// How a program is analysed.
#[derive(Clone, Copy, Debug, PartialEq, Eq, Hash)]
pub struct AnalysisOptions {
    /// What is known of variables.
    pub domain: DomainName,
    /// How loops are widened; the delay is 0 to 100.
    pub widening: Widening,
    /// How many iterates a loop may take, 1 to 10,000.
    pub budget: u32,
}

/// A domain.
#[derive(Clone, Copy, Debug, PartialEq, Eq, Hash)]
pub enum DomainName {
    /// A range for each number.
    Interval,
    /// Bounds on numbers, and on the sums and differences of two.
    Octagon,
    /// Which lists the variables name, and what they share.
    ListSeg,
    /// Intervals and list segments as one.
    IntervalListSeg,
    /// Octagons and list segments as one.
    OctagonListSeg,
    /// List segments with one graph a shape.
    Shapes,
    /// Intervals and shapes as one.
    IntervalShapes,
    /// Octagons and shapes as one.
    OctagonShapes,
}

/// A domain that is no product: its states can be written and read back.
#[derive(Clone, Copy, Debug, PartialEq, Eq, Hash)]
pub enum SingleDomain {
    /// A range for each number.
    Interval,
    /// Bounds on numbers, and on the sums and differences of two.
    Octagon,
    /// Which lists the variables name, and what they share.
    ListSeg,
}

/// The name of a file, seen as the list of its bytes.
#[derive(Debug, Drop)]
pub struct FileName {
    text: String,
}

impl Model for FileName {
    ghost use Rattle.std.specs.Prelude.{ℕ, List};
    ghost use Rattle.std.specs.String.{string_bytes};

    ghost Value = { List ℕ };

    ghost view = { λ a. string_bytes a.text };
}

impl FileName {
    /// The name that has this text.
    pub(crate) fn new(alloc: Global, text: &str) -> Result<FileName, Memory>
        ensures is { IfOk result (λ name. name ≡ text.now) }
    {
        let text = String::from_str(alloc, text)?;
        Ok(FileName { text })
    }

    /// The text.
    pub fn as_str(&self) -> &str
        ensures is { result.now ≡ self.now }
    {
        self.text.as_str()
    }
}

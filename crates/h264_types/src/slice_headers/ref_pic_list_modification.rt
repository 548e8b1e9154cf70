//! Modification of reference lists (7.3.3.1, 7.4.3.1).

ghost use Rattle.std.specs.Prelude.{◌≡◌, List, [], ◌∷◌, ◌++◌, OnOk, OnErr};
ghost use Rattle.h264_types.specs.declared.slice_headers.ref_pic_list_modification.RefPicListModification.{RefPicListModification};

use smallvec::SmallVec;
use std::alloc::{AllocError, Global};
use std::marker::Model;

/// One command of a list, by its modification_of_pic_nums_idc.
#[derive(Clone, Copy, Debug, PartialEq, Eq, Hash, Drop)]
pub enum RefPicListModification {
    /// 0: the short-term frame whose number is lower than the last by `abs_diff_pic_num_minus1` +
    /// 1.
    Subtract { abs_diff_pic_num_minus1: u32 },
    /// 1: the short-term frame whose number is higher than the last by `abs_diff_pic_num_minus1` +
    /// 1.
    Add { abs_diff_pic_num_minus1: u32 },
    /// 2: the long-term frame of this number.
    LongTerm { long_term_pic_num: u32 },
}

impl Default for RefPicListModification {
    ghost use Rattle.h264_types.specs.declared.slice_headers.ref_pic_list_modification.RefPicListModification.TheVariants.{LongTerm};

    ghost is_default = { λ command. command ≡ LongTerm 0 };

    fn default() -> RefPicListModification {
        RefPicListModification::LongTerm {
            long_term_pic_num: 0,
        }
    }
}

/// The commands of a list, in their order; none where its flag is 0.
#[derive(Debug, Drop)]
pub struct RefPicListModifications {
    commands: SmallVec<RefPicListModification, 4>,
}

impl Model for RefPicListModifications {
    ghost Value = { List RefPicListModification };

    ghost view = { λ list. list.commands.items };
}

impl RefPicListModifications {
    /// No commands.
    pub fn new(alloc: Global) -> RefPicListModifications
        ensures { result ≡ [] }
    {
        RefPicListModifications {
            commands: SmallVec::new(alloc),
        }
    }

    /// One command more, after the others.
    pub fn push(&mut self, command: RefPicListModification) -> Result<(), AllocError>
        ensures ok { OnOk result (self.new ≡ self.old ++ command ∷ []) }
        ensures err { OnErr result (self.new ≡ self.old) }
    {
        self.commands.push(command)?;
        Ok(())
    }

    /// The commands, in their order.
    pub fn as_slice(&self) -> &[RefPicListModification]
        ensures { result.now ≡ self.now }
    {
        self.commands.as_slice()
    }
}

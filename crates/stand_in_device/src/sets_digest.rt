//! The digest of what the parameter sets decide: the prefix of a picture's first record, kept for
//! the pictures after it.

ghost use Rattle.std.specs.Prelude.{◌≡◌, ◌↔◌, ◌++◌, IfOk, IsTrue, OnOk};
ghost use Rattle.sha2.specs.Hashers.{Holds256};
ghost use Rattle.param_set_controls.specs.SetsForm.{sets_form};

use h264_controls::{SetControls, sets_form};
use h264_types::base::Shared;
use sha2::{Digest, Sha256};
use std::alloc::AllocError;
use std::marker::Model;

/// The form of the controls of parameter sets, and a hasher that took it. Clauses see the controls.
#[derive(Drop)]
pub(crate) struct SetsDigest {
    sets: Shared<SetControls>,
    form: Vec<u8>,
    hasher: Sha256,
}

impl Model for SetsDigest {
    ghost use Rattle.param_set_controls.specs.declared.set_controls.SetControls.{SetControls};
    ghost use Rattle.stand_in_device.specs.Fronts.{IsFront};

    ghost Value = { SetControls };

    ghost view = { λ digest. digest.sets };

    ghost invariant = { λ digest. IsFront digest.sets digest.form.items digest.hasher };
}

impl SetsDigest {
    /// The digest of these controls, whose form is put together in `form`.
    pub(crate) fn of(
        sets: &Shared<SetControls>,
        form: &mut Vec<u8>,
    ) -> Result<SetsDigest, AllocError>
        ensures { IfOk result (λ digest. digest ≡ sets.now) }
    {
        form.clear();
        sets_form(sets, form)?;
        let mut hasher = Sha256::new();
        hasher.update(form.as_slice());
        Ok(SetsDigest {
            sets: sets.clone()?,
            form: form.clone()?,
            hasher,
        })
    }

    /// Whether it is the digest of these controls.
    pub(crate) fn is_of(&self, sets: &SetControls) -> bool
        ensures { IsTrue result ↔ (self.now ≡ sets.now) }
    {
        self.sets.is_same(sets)
    }

    /// Appends the form of the controls.
    pub(crate) fn put(&self, form: &mut Vec<u8>) -> Result<(), AllocError>
        ensures { OnOk result (form.new.items ≡ form.old.items ++ sets_form self.now) }
    {
        form.extend_from_slice(self.form.as_slice())
    }

    /// A hasher that took the form of the controls.
    pub(crate) fn hasher(&self) -> Result<Sha256, AllocError>
        ensures { IfOk result (λ hasher. Holds256 hasher (sets_form self.now)) }
    {
        self.hasher.clone()
    }
}

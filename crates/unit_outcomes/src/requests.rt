//! What a decoder is asked to do for a unit.

ghost use Rattle.std.specs.Prelude.{◌≡◌, IfOk, vec_len};

use h264_controls::Request;
use std::alloc::{AllocError, Global};
use std::marker::Model;

/// The requests of a unit, one for each slice, in order. One alone takes no memory of its own
/// beside its body.
#[derive(Debug)]
pub struct Requests {
    items: Items,
}

// By hand, so that whoever drops one is proved over one call.
impl Drop for Requests {
    fn drop(self) {
        let Requests { items: _ } = self;
    }
}

/// Where the requests stand.
#[derive(Debug, Drop)]
enum Items {
    One([Request; 1]),
    Many(Vec<Request>),
}

impl Model for Requests {
    ghost use Rattle.std.specs.Prelude.{List};
    ghost use Rattle.h264_controls.specs.declared.request.Request.{Request};
    ghost use Rattle.unit_outcomes.specs.RequestItems.{requests_in};

    ghost Value = { List Request };

    ghost view = { λ requests. requests_in requests.items };
}

impl Requests {
    /// These requests.
    pub fn new(items: Vec<Request>) -> Requests
        ensures { result ≡ items.items }
    {
        if items.len() == 1 {
            only(items)
        } else {
            Requests {
                items: Items::Many(items),
            }
        }
    }

    /// The requests, in the order of the slices.
    pub fn as_slice(&self) -> &[Request]
        ensures { result.now ≡ self.now }
    {
        match &self.items {
            Items::One(one) => one.as_slice(),
            Items::Many(many) => many.as_slice(),
        }
    }

    /// The same requests.
    pub fn copy(&self, alloc: Global) -> Result<Requests, AllocError>
        ensures { IfOk result (λ copy. copy ≡ self.now) }
    {
        Ok(Requests::new(copies(alloc, self.as_slice())?))
    }
}

/// The requests, of which there is one.
fn only(mut items: Vec<Request>) -> Requests
    requires { vec_len items ≡ 1 }
    ensures { result ≡ items.items }
{
    match items.pop() {
        Some(request) => Requests {
            items: Items::One([request]),
        },
        None => Requests {
            items: Items::Many(items),
        },
    }
}

/// The same requests.
fn copies(alloc: Global, requests: &[Request]) -> Result<Vec<Request>, AllocError>
    ensures { IfOk result (λ copies. copies.items ≡ requests.now) }
{
    let mut copies = Vec::with_capacity(alloc, requests.len())?;
    for request in requests {
        copies.push(request.copy()?)?;
    }
    Ok(copies)
}

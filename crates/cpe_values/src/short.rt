// Short bodies, which need no memory outside their value.
ghost use Rattle.std.specs.Prelude.{◌≡◌, ◌≤◌, length};
ghost use Rattle.std.specs.Str.{str_to_ascii_lowercase};
ghost use Rattle.cpe_values.specs.declared.short.TheConstants.{SHORT};

use std::marker::Model;

// The greatest length in bytes of a body that is stored in its value.
pub(crate) const SHORT: usize = 14;

// A body of at most `SHORT` bytes. Contracts see its bytes.
#[derive(Debug, Drop)]
pub(crate) struct ShortBody {
    length: u8,
    bytes: [u8; SHORT],
}

impl Model for ShortBody {
    ghost use Rattle.std.specs.Prelude.{ℕ, ◌≤◌, List, take};
    ghost use Rattle.cpe_values.specs.declared.short.TheConstants.{SHORT};

    ghost Value = { List ℕ };

    ghost view = { λ b. take b.length b.bytes };

    ghost invariant = { λ b. b.length ≤ SHORT };
}

impl ShortBody {
    // A short body that is a copy of `body`.
    pub(crate) fn new(body: &[u8]) -> ShortBody
        requires { length body.now ≤ SHORT }
        ensures { result ≡ body.now }
    {
        let mut bytes = [0; SHORT];
        bytes[..body.len()].copy_from_slice(body);
        ShortBody {
            length: body.len() as u8,
            bytes,
        }
    }

    // A copy of the body.
    pub(crate) fn copy(&self) -> ShortBody
        ensures { result ≡ self.now }
    {
        ShortBody {
            length: self.length,
            bytes: self.bytes,
        }
    }

    pub(crate) fn as_slice(&self) -> &[u8]
        ensures { result.now ≡ self.now }
    {
        &self.bytes[..self.length as usize]
    }

    // Changes every letter of the body to lower case.
    pub(crate) fn make_lower(&mut self)
        ensures { self.new ≡ str_to_ascii_lowercase self.old }
    {
        self.bytes[..self.length as usize].make_ascii_lowercase();
    }
}

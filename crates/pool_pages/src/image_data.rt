ghost use Rattle.std.specs.Prelude.{◌≡◌, ℕ, ◌%◌, List, length};
ghost use Rattle.pool_pages.specs.ImageBytes.{ImageBytes};

use pool_types::{ByteList, PageSize};
use std::marker::Model;

/// The bytes of an image, a whole number of pages long.
#[derive(Debug, Drop)]
pub struct ImageData {
    page: PageSize,
    bytes: ByteList,
}

impl Model for ImageData {
    ghost use Rattle.std.specs.Prelude.{◌≡◌, ◌%◌, length};
    ghost use Rattle.pool_pages.specs.ImageBytes.{ImageBytes};

    ghost Value = { ImageBytes };

    ghost view = { λ d. record { page = d.page; bytes = d.bytes } };

    ghost invariant = { λ d. length d.bytes % d.page ≡ 0 };
}

impl ImageData {
    /// Takes no memory.
    pub fn new(page: PageSize, bytes: ByteList) -> ImageData
        requires { length bytes % page ≡ 0 }
        ensures { result ≡ record { page = page; bytes = bytes } }
    {
        ImageData { page, bytes }
    }

    pub fn page(&self) -> PageSize
        ensures { result ≡ self.now.page }
    {
        self.page
    }

    pub fn as_slice(&self) -> &[u8]
        ensures value { result.now ≡ self.now.bytes }
        ensures whole { length self.now.bytes % self.now.page ≡ 0 }
    {
        self.bytes.as_slice()
    }
}

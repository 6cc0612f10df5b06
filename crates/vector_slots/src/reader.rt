// A file's bytes in their order. Each method gives `None` where the file ends too early.
ghost use Rattle.std.specs.Prelude.{◌≡◌, ◌≤◌, ◌↔◌, length, take, drop, slice_index, IsSome, IfSome, IfNone};
ghost use Rattle.std.specs.Int.{w16, w32, from_le_bytes};

#[derive(Clone, Copy)]
pub struct Reader<'a> {
    // What is still to be read.
    pub rest: &'a [u8],
}

impl<'a> Reader<'a> {
    pub fn bytes(&mut self, count: usize) -> Option<&'a [u8]>
        ensures found { IsSome result ↔ (count ≤ length self.old.rest.now) }
        ensures taken { IfSome result (λ b. (b.now ≡ take count self.old.rest.now) × (self.new.rest.now ≡ drop count self.old.rest.now)) }
    {
        let (bytes, rest) = self.rest.split_at_checked(count)?;
        self.rest = rest;
        Some(bytes)
    }

    pub fn array<const N: usize>(&mut self) -> Option<[u8; N]>
        ensures found { IsSome result ↔ (N ≤ length self.old.rest.now) }
        ensures taken { IfSome result (λ b. (b ≡ take N self.old.rest.now) × (self.new.rest.now ≡ drop N self.old.rest.now)) }
    {
        let (bytes, rest) = self.rest.split_first_chunk::<N>()?;
        self.rest = rest;
        Some(*bytes)
    }

    // Numbers, the low byte first.

    pub fn u8(&mut self) -> Option<u8>
        ensures found { IsSome result ↔ (1 ≤ length self.old.rest.now) }
        ensures taken { IfSome result (λ x. (x ≡ slice_index self.old.rest.now 0) × (self.new.rest.now ≡ drop 1 self.old.rest.now)) }
    {
        self.array().map(u8::from_le_bytes)
    }

    pub fn u16(&mut self) -> Option<u16>
        ensures found { IsSome result ↔ (2 ≤ length self.old.rest.now) }
        ensures taken { IfSome result (λ x. (x ≡ from_le_bytes w16 (take 2 self.old.rest.now)) × (self.new.rest.now ≡ drop 2 self.old.rest.now)) }
    {
        self.array().map(u16::from_le_bytes)
    }

    pub fn u32(&mut self) -> Option<u32>
        ensures found { IsSome result ↔ (4 ≤ length self.old.rest.now) }
        ensures taken { IfSome result (λ x. (x ≡ from_le_bytes w32 (take 4 self.old.rest.now)) × (self.new.rest.now ≡ drop 4 self.old.rest.now)) }
    {
        self.array().map(u32::from_le_bytes)
    }
}

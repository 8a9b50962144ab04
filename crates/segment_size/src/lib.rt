// S, the segment size: whether one is allowed.
#![tactic(auto)]

ghost use Rattle.std.specs.Prelude.{◌≡◌};
ghost use Rattle.segment_size.specs.Sizes.{size_allowed};

// S is 8, 16, 32 up to 1,024.
pub fn size_is_allowed(size: u32) -> bool
    ensures { result ≡ size_allowed size }
{
    match size {
        8 | 16 | 32 | 64 | 128 | 256 | 512 | 1024 => true,
        _ => false,
    }
}

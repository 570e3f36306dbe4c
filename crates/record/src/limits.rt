// limits.rt - how much a record may hold, and which values a slot may have. The one place that says it.
// Means: specs/Limits.antt.  Laws: proofs/SizeLaws.antt.
// Uses: codes.  Source: [01 The journal], [01 State].
ghost use Rattle.std.specs.Prelude.{◌≡◌};
ghost use Rattle.record.specs.Limits.{valid_status, valid_value};

pub const SLOT_LIMIT: usize = codes::SLOTS;

pub const BYTE_LIMIT: usize = 70;

pub const LONGEST_RECORD: usize = 536;

pub const LONGEST_RECORD_TWO: usize = 606;

pub const STATUS_SLOT: u32 = codes::SR as u32;

pub const MODE_SLOT: u32 = codes::MODE as u32;

// Whether v has no bit that the status register lacks.
pub fn valid_status(v: u32) -> bool
    ensures { result ≡ valid_status v }
{
    v / 32 % 8 + v / 2048 % 4 + v / 16384 % 2 + v / 65536 == 0
}

// Whether the slot at a place can hold v.
#[tactic(auto, unfolding(crate::specs::Limits::valid_value))]
pub fn valid_value(place: u32, v: u32) -> bool
    ensures { result ≡ valid_value place v }
{
    match place {
        STATUS_SLOT => valid_status(v),
        MODE_SLOT => v < codes::MODES,
        _ => true,
    }
}

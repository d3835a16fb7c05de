// Labels: as a caller gives them, as rows hold them, and as they come back.
#![tactic(auto)]

ghost use Rattle.std.specs.List.{list_all, position};
ghost use Rattle.std.specs.Prelude.{◌≡◌, ◌==◌, not};
ghost use Rattle.label.specs.Labels.{graphic, label_of, held_answer, held_label, label_part, label_ok, all_zero};

use refusal::Refusal;

// A label as a caller gives it: its length, which may be too great, and its first 16 bytes. Bytes behind the length say nothing.
// It is no slice: panel_board prints what becomes of bytes behind the length, which no slice has.
#[derive(Clone, Copy)]
pub struct Label {
    pub bytes: [u8; 16],
    pub length: usize,
}

// The label that a slice of any length gives.
pub fn label_of(s: &[u8]) -> Label
    ensures { result ≡ label_of s.now }
{
    let n = s.len().min(16);
    let mut bytes = [0u8; 16];
    bytes[..n].copy_from_slice(&s[..n]);
    Label {
        bytes,
        length: s.len(),
    }
}

// Whether a label may have all the bytes.
fn all_graphic(bytes: &[u8]) -> bool
    ensures { result ≡ list_all graphic bytes.now }
{
    bytes.iter().all(|b| b.is_ascii_graphic())
}

// The label as rows hold it, with zeros behind, or the refusal: too long, or with another byte than 0x21 to 0x7E.
#[tactic(auto, using(crate::proofs::Labels::too_long, crate::proofs::Labels::another_byte, crate::proofs::Labels::accepted))]
pub fn held_label(l: Label) -> Result<[u8; 16], Refusal>
    ensures { held_answer result ≡ held_label l }
{
    if 16 < l.length {
        return Err(Refusal::BadLabel);
    }
    let given = &l.bytes[..l.length];
    if !all_graphic(given) {
        return Err(Refusal::BadLabel);
    }
    Ok(label_of(given).bytes)
}

// The place of the first zero byte.
fn first_zero(bytes: &[u8]) -> Option<usize>
    ensures { result ≡ position (λ b. b == 0) bytes.now }
{
    bytes.iter().position(|b| *b == 0)
}

// The part of a label's bytes before the first zero, or all.
#[tactic(auto, using(crate::proofs::Labels::to_first_zero, crate::proofs::Labels::no_zero))]
pub fn label_part(bytes: &[u8]) -> &[u8]
    ensures { result.now ≡ label_part bytes.now }
{
    match first_zero(bytes) {
        Some(end) => &bytes[..end],
        None => bytes,
    }
}

// Whether the bytes are all zero.
pub fn all_zero(bytes: &[u8]) -> bool
    ensures { result ≡ all_zero bytes.now }
{
    bytes.iter().all(|b| *b == 0)
}

// The place of the first byte that no label may have.
fn first_other(bytes: &[u8]) -> Option<usize>
    ensures { result ≡ position (λ b. not (graphic b)) bytes.now }
{
    bytes.iter().position(|b| !b.is_ascii_graphic())
}

// Whether bytes are a label: some from 0x21 to 0x7E, and then zeros.
#[tactic(auto, using(crate::proofs::Labels::to_first_other, crate::proofs::Labels::no_other))]
fn bytes_ok(bytes: &[u8]) -> bool
    ensures { result ≡ label_ok bytes.now }
{
    match first_other(bytes) {
        Some(end) => all_zero(&bytes[end..]),
        None => true,
    }
}

// Whether 16 bytes are a label.
pub fn label_ok(bytes: [u8; 16]) -> bool
    ensures { result ≡ label_ok bytes }
{
    bytes_ok(&bytes)
}

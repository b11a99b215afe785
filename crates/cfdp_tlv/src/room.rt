//! How much room fields take, and appending them where the room has been made.

ghost use Rattle.std.specs.Prelude.{◌≡◌, ◌+◌, ◌<◌, ◌≤◌, ◌++◌, length, vec_len, option_map, min};
ghost use Rattle.std.specs.Vec.{vec_capacity};
ghost use Rattle.cfdp_tlv.specs.Field.{lv};
ghost use Rattle.cfdp_tlv.specs.Grammar.{names_as_lv};

/// How many octets the names take as LV fields, where that is a `usize`.
pub fn names_len(first: &[u8], second: Option<&[u8]>) -> usize
    ensures { result ≡ min (length (names_as_lv first.now (option_map (λ name. name.now) second.entry))) usize.MAX }
{
    let len = first.len().saturating_add(1);
    match second {
        None => len,
        Some(second) => len.saturating_add(second.len().saturating_add(1)),
    }
}

/// Appends an LV field (CCSDS 727.0-B-5 §5.1.8). It cannot fail, since there is room for it.
pub fn push_lv(out: &mut Vec<u8>, value: &[u8])
    requires short { length value.now < 256 }
    requires room { vec_len out.old + (length value.now + 1) ≤ vec_capacity out.old }
    ensures items { out.new.items ≡ out.old.items ++ lv value.now }
    ensures len { vec_len out.new ≡ vec_len out.old + (length value.now + 1) }
    ensures capacity { vec_capacity out.old ≤ vec_capacity out.new }
{
    out.push_reserved(value.len() as u8);
    out.extend_from_slice(value).unwrap();
}

/// Appends the names as LV fields. It cannot fail, since there is room for them.
pub fn push_names(out: &mut Vec<u8>, first: &[u8], second: Option<&[u8]>)
    requires short { length (names_as_lv first.now (option_map (λ name. name.now) second)) < 256 }
    requires room { vec_len out.old + length (names_as_lv first.now
        (option_map (λ name. name.now) second)) ≤ vec_capacity
        out.old }
    ensures items { out.new.items ≡ out.old.items ++ names_as_lv first.now
        (option_map (λ name. name.now) second.entry) }
    ensures len { vec_len out.new ≡ vec_len out.old + length
        (names_as_lv first.now (option_map (λ name. name.now) second.entry)) }
    ensures capacity { vec_capacity out.old ≤ vec_capacity out.new }
{
    push_lv(out, first);
    if let Some(second) = second {
        push_lv(out, second);
    }
}

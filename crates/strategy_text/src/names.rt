//! The texts of enum names.

ghost use Rattle.std.specs.Prelude.{◌≡◌, [], map, string_bytes, slice_index_or};

/// The text of an enum name; of one that isn't there, the empty text.
pub fn name_text(names: &[String], n: u16) -> &str
    ensures { result.now ≡ slice_index_or (map string_bytes names.now) n [] }
{
    match names.get(n as usize) {
        Some(name) => name.as_str(),
        None => "",
    }
}

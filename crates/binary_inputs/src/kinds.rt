//! The printed name of each kind of refusal of a binary.

ghost use Rattle.std.specs.Prelude.{◌≡◌, option_map};
ghost use Rattle.binary_inputs.specs.Input.{read_kind_name};

use wire_read::ReadKind;

/// The printed name of a kind; want of memory has none, since it says nothing of the bytes.
pub fn read_kind_name(kind: ReadKind) -> Option<&'static str>
    ensures { option_map (λ name. name.now) result ≡ read_kind_name kind }
{
    match kind {
        ReadKind::TooBig { .. } => Some("Read-TooBig"),
        ReadKind::NotComponent => Some("Read-NotComponent"),
        ReadKind::TooDeep => Some("Read-TooDeep"),
        ReadKind::NoMemory => None,
    }
}

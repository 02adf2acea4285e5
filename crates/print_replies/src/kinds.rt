//! The printed name of each kind of refusal of a component that was read.

ghost use Rattle.std.specs.Prelude.{◌≡◌, option_map};
ghost use Rattle.print_replies.specs.Answer.{print_kind_name};

use tree_print::PrintKind;

/// The printed name of a kind; want of memory has none, since it says nothing of the component.
pub fn print_kind_name(kind: PrintKind) -> Option<&'static str>
    ensures { option_map (λ name. name.now) result ≡ print_kind_name kind }
{
    match kind {
        PrintKind::CoreModule => Some("Print-CoreModule"),
        PrintKind::NoText => Some("Print-NoText"),
        PrintKind::TooBig { .. } => Some("Print-TooBig"),
        PrintKind::TooDeep => Some("Print-TooDeep"),
        PrintKind::NoMemory => None,
    }
}

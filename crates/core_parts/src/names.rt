//! The id and the label of what is read.

use crate::parts::Joined;
use wast_parser::{Id, NameAnnotation};

/// The id and the label of an item.
pub type Names<'a> = (Option<Id<'a>>, Option<NameAnnotation<'a>>);

/// The same as parts that are read.
pub type NameParts<'a> = Joined<Option<Id<'a>>, Option<NameAnnotation<'a>>>;

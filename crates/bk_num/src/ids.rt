//! Numbers by which one part of the program names what another part owns.

ghost use Rattle.std.specs.Prelude.{◌≡◌, ◌<◌, IfSome};
ghost use Rattle.bk_num.specs.Numbers.{last_of};

/// The number of a face of a metrics text, from 0.
#[derive(Clone, Copy, Debug, PartialEq, Eq, PartialOrd, Ord, Hash)]
pub struct FaceId(pub u16);

/// The number of a node of a document, from 0.
#[derive(Clone, Copy, Debug, PartialEq, Eq, PartialOrd, Ord, Hash)]
pub struct NodeId(pub u32);

/// The number of a page name. 0 is no name.
#[derive(Clone, Copy, Debug, PartialEq, Eq, PartialOrd, Ord, Hash)]
pub struct NameId(pub u32);

/// The number of the last of so many, from 0.
pub fn last_of(count: usize) -> Option<usize>
    ensures value { result ≡ last_of count }
    ensures below { IfSome result (λ at. at < count) }
{
    if count == 0 { None } else { Some(count - 1) }
}

ghost use Rattle.std.specs.Prelude.{◌≡◌, ◌<◌, ◌≤◌, All, length};
ghost use Rattle.surw_base.specs.declared.limits.TheConstants.{FRAMES};
ghost use Rattle.frame_links.specs.Lists.{list_at, node_count, HasEachOnce};

use crate::Vec16;
use frame_links::Links;

/// The nodes of a list, in its order.
pub(crate) fn listed(links: &Links, list: u8) -> Vec16
    requires list { list < length links.now }
    requires few { node_count links.now ≤ FRAMES }
    requires each_once { HasEachOnce links.now }
    ensures list { result ≡ list_at links.now list }
    ensures within { All (λ node. node < node_count links.now) result }
{
    let mut items = Vec16::new();
    let mut at = links.first(list);
    while let Some(node) = at {
        items.push(node);
        at = links.next(node);
    }
    items
}

ghost use Rattle.std.specs.Prelude.{◌≡◌, ◌+◌, ◌++◌, ◌≤◌, length, vec_capacity, vec_len};
ghost use Rattle.bx_fanout.specs.HeldInputs.{items_of};

use bx_message::{Answer, Item};

/// Appends the events of `answer` and then its reply to `items`, which must have room.
pub(crate) fn add_items(items: &mut Vec<Item>, answer: Answer)
    requires room { vec_len items.old + length answer.events + 1 ≤ vec_capacity items.old }
    ensures { items.new.items ≡ items.old.items ++ items_of answer }
{
    let Answer { events, reply } = answer;
    for event in events.into_vec() {
        items.push_reserved(Item::EventItem(event));
    }
    items.push_reserved(Item::ReplyItem(reply));
}

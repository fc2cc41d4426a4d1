// The layout of a card (docs/RULES.md, "Cards"): its definitions, in specs/, and the test of keys that the writer and the reader share.
#![tactic(auto)]

ghost use Rattle.std.specs.Prelude.{◌≡◌, ◌≤◌, length, take};
ghost use Rattle.card_layout.specs.Stored.{keys_in_order};

use refusal::Refusal;

// Whether the first `count` keys ascend strictly and none passes the limit of refusal 17. An array and a count, since
// `categoric_keys::ascending` takes them.
#[tactic(auto, using(crate::proofs::Ordering::in_order_if, crate::proofs::Ordering::out_of_order))]
pub fn keys_in_order(keys: &[i64; 256], count: usize) -> bool
    requires { (count ≤ 256) × (length keys.now ≡ 256) }
    ensures { result ≡ keys_in_order (take count keys.now) }
{
    categoric_keys::ascending(keys, count) && categoric_lists::keys_refusal(&keys[..count]).is_ok()
}

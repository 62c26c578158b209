// How often the head changes its tip along an order.
ghost use Rattle.std.specs.Prelude.{◌≡◌};
ghost use Rattle.head.specs.OnHead.{on_head};
ghost use Rattle.order_rules.specs.Tips.{has_other, changes};
ghost use Rattle.flat_order.specs.Flat.{Tipped};

#[tactic(auto, unfolding(order_rules::specs::Tips::has_other))]
fn has_other(head: Option<usize>, tip: usize) -> bool
    ensures { result ≡ has_other (on_head head) tip }
{
    head.is_some_and(|on| on != tip)
}

// From the mounted tip on; to mount the first tip on a bare head is no change. The plan has the tip of each part.
pub fn count_changes(plan: &[u8], mounted: Option<usize>, order: &[u8]) -> usize
    requires { Tipped plan.now order.now }
    ensures { result ≡ changes plan.now (on_head mounted) order.now }
{
    let mut changes = 0;
    let mut head = mounted;
    for &part in order {
        let tip = usize::from(plan[usize::from(part)]);
        changes += usize::from(has_other(head, tip));
        head = Some(tip);
    }
    changes
}

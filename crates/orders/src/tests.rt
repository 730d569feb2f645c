ghost use Rattle.std.specs.Prelude.{◌≡◌, IfSome};
ghost use Rattle.model.specs.Search.{entry};

use super::Order;
use super::by_number::ByNumber;
use super::by_preference::ByPreference;

// Proved once for every order: a variable that is chosen is unset.
fn chosen<O: Order>(order: &O, settings: &[u8]) -> Option<u8>
    ensures { IfSome result (λ v. entry settings.now v ≡ 2) }
{
    order.choose(settings)
}

#[test]
fn by_number(rt: HostRuntime) {
    let order = ByNumber::new(3);
    assert_eq!(rt; order.size(), 3);
    assert_eq!(rt; chosen(&order, &[0, 2, 2]), Some(2));
    // a byte that is neither 0, 1 nor 2, a missing byte, and a byte too many
    assert_eq!(rt; chosen(&order, &[1, 3]), None);
    assert_eq!(rt; chosen(&order, &[]), None);
    assert_eq!(rt; chosen(&order, &[0, 0, 0, 2]), None);
}

#[test]
fn sizes(rt: HostRuntime) {
    assert_eq!(rt; ByNumber::new(0).size(), 0);
    assert_eq!(rt; ByNumber::new(201).size(), 200);
    let order = ByPreference::new(201, &[201, 200]);
    assert_eq!(rt; order.size(), 200);
    assert_eq!(rt; chosen(&order, &[2; 201]), Some(200));
}

#[test]
fn by_preference(rt: HostRuntime) {
    // repeats, zeros and numbers above the size are skipped: 3, 1, 2, 4
    let order = ByPreference::new(4, &[3, 0, 3, 5, 1, 259]);
    assert_eq!(rt; chosen(&order, &[2, 2, 2, 2]), Some(3));
    assert_eq!(rt; chosen(&order, &[2, 2, 0, 2]), Some(1));
    assert_eq!(rt; chosen(&order, &[0, 2, 0, 2]), Some(2));
    assert_eq!(rt; chosen(&order, &[0, 1, 0, 2]), Some(4));
    assert_eq!(rt; chosen(&order, &[0, 1, 0, 1]), None);
}

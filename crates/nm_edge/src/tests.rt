use super::*;
use std::alloc::AllocError;

#[test]
fn a_null_edge_is_never_marked(rt: HostRuntime) {
    assert!(rt; Edge::new(0, true, false).is_none());
    assert!(rt; Edge::new(0, false, true).is_none());
    assert_eq!(rt; Edge::new(0, false, false), Some(Edge::to(0)));
    assert_eq!(rt; Edge::to(0).tagged(), Edge::to(0));
}

#[test]
fn marks_are_set_and_taken(rt: HostRuntime) {
    let edge = Edge::to(9).flagged().tagged();
    assert_eq!(rt; (edge.slot(), edge.flag(), edge.tag()), (9, true, true));
    assert_eq!(rt; edge.untagged(), Edge::to(9).flagged());
    assert!(rt; Edge::to(9).is_to(9));
    assert!(rt; !edge.is_to(9));
    assert_eq!(rt; Side::Left.other(), Side::Right);
}

#[test]
fn edges_are_words(rt: HostRuntime) {
    assert_eq!(rt; Edge::to(9).pack(), 36);
    assert_eq!(rt; Edge::to(9).flagged().pack(), 37);
    assert_eq!(rt; Edge::to(9).tagged().pack(), 38);
    assert_eq!(rt;
        Edge::to(u32::MAX).flagged().tagged().pack(),
        17_179_869_183
    );
    assert_eq!(rt; Edge::unpack(37), Some(Edge::to(9).flagged()));
    assert_eq!(rt; Edge::unpack(0), Some(Edge::to(0)));
    assert_eq!(rt;
        Edge::unpack(17_179_869_183),
        Some(Edge::to(u32::MAX).flagged().tagged())
    );
    assert!(rt; Edge::unpack(1).is_none());
    assert!(rt; Edge::unpack(2).is_none());
    assert!(rt; Edge::unpack(3).is_none());
    assert!(rt; Edge::unpack(17_179_869_184).is_none());
    assert_eq!(rt; Edge::of_word(38), Edge::to(9).tagged());
    unpacking_gives_the_edge();
    packing_gives_the_word();
}

#[test]
fn an_edge_is_told_by_slot_and_marks(rt: HostRuntime) -> Result<(), AllocError> {
    let text = format!(in rt.alloc(); "{:?}", Edge::of_word(38))?;
    assert_eq!(rt; text.as_str(), "Edge { slot: 9, flag: false, tag: true }");
    Ok(())
}

#[test]
fn layouts_have_their_limits(rt: HostRuntime) {
    assert_eq!(rt; Layout::new(6, 65), Err(LayoutError::Nodes));
    assert_eq!(rt; Layout::new(1_048_577, 65), Err(LayoutError::Nodes));
    assert_eq!(rt; Layout::new(1_048_576, 65), Err(LayoutError::Workers));
    assert_eq!(rt; Layout::new(7, 0), Err(LayoutError::Workers));
    assert_eq!(rt; Layout::new(7, 64).map(Layout::nodes), Ok(7));
    assert_eq!(rt; Layout::new(7, 64).map(Layout::workers), Ok(64));
}

#[test]
fn edges_have_places(rt: HostRuntime) {
    let right = EdgePlace::new(9, Side::Right);
    assert_eq!(rt; (right.slot(), right.side()), (9, Side::Right));
    let left = EdgePlace::below(Edge::to(1_073_741_823), Side::Left);
    assert_eq!(rt; (left.slot(), left.side()), (1_073_741_823, Side::Left));
}

#[test]
fn keys_have_a_limit(rt: HostRuntime) {
    assert_eq!(rt;
        Key::new(18_446_744_073_709_551_612).map(Key::get),
        Some(18_446_744_073_709_551_612)
    );
    assert_eq!(rt; Key::new(0).map(Key::get), Some(0));
    assert!(rt; Key::new(18_446_744_073_709_551_613).is_none());
    assert!(rt; Key::new(u64::MAX).is_none());
    assert!(rt; Key::new(9) < Key::new(10));
}

#[test]
fn fields_have_words(rt: HostRuntime) {
    let Ok(layout) = Layout::new(135, 2) else {
        unreachable!()
    };
    assert_eq!(rt; layout.words(), 546);
    assert_eq!(rt; layout.epoch(), 0);
    assert_eq!(rt; (layout.announcement(0), layout.announcement(1)), (1, 2));
    assert_eq!(rt; (layout.key(1), layout.birth(1)), (3, 6));
    assert_eq!(rt;
        (layout.edge(1, Side::Left), layout.edge(1, Side::Right)),
        (4, 5)
    );
    assert_eq!(rt; (layout.key(135), layout.birth(135)), (539, 542));
    fields_are_apart();
}

#[test]
fn slots_have_places_in_the_pool(rt: HostRuntime) {
    let Ok(layout) = Layout::new(135, 2) else {
        unreachable!()
    };
    assert_eq!(rt;
        layout.pool(6),
        PoolPlace {
            word: 543,
            mask: 32
        }
    );
    assert_eq!(rt;
        layout.pool(64),
        PoolPlace {
            word: 543,
            mask: 9_223_372_036_854_775_808
        }
    );
    assert_eq!(rt; layout.pool(65), PoolPlace { word: 544, mask: 1 });
    assert_eq!(rt;
        layout.pool(135),
        PoolPlace {
            word: 545,
            mask: 64
        }
    );
    pool_places_are_apart();
}

#[test]
fn the_largest_layout_has_its_words(rt: HostRuntime) {
    assert_eq!(rt;
        Layout::new(1_048_576, 64).map(Layout::words),
        Ok(4_210_753)
    );
}

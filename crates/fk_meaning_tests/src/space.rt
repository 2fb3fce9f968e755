use fk_space::{Space, heap};

// The group space of a program without globals and input.
fn whole() -> Space {
    Space::whole(0, 524_288)
}

// A number of parts, and the number of words of each.
const DIVIDED: [(u32, Option<u32>); 4] = [
    (2, Some(262_136)),
    (26_214, Some(16)),
    (26_215, None),
    (1 << 30, None),
];

#[test]
fn a_space_is_divided_evenly(rt: HostRuntime) {
    let space = whole();
    assert!(rt; space.free() == 524_280);
    for (parts, words) in DIVIDED {
        assert!(rt; parts >= 1 && space.share(parts) == words, "{parts}");
    }
}

// Of 524,280 - 12 words each of three parts gets 174,756.
const FIRST: Space = Space {
    low: 20,
    high: 174_776,
    frames: 28,
    blocks: 174_776,
};

#[test]
fn parts_follow_each_other(rt: HostRuntime) {
    let space = whole();
    assert!(rt; space.share(3).is_some());
    assert!(rt; space.child(3, 0) == FIRST);
    assert!(rt; space.child(3, 1).low == 174_776);
    assert!(rt; space.child(3, 2).high == 524_288);
}

// The share of one of two parts, divided again and again down to the last share, of 16 words.
const SHARES: [u32; 14] = [
    262_136, 131_060, 65_522, 32_753, 16_368, 8_176, 4_080, 2_032, 1_008, 496, 240, 112, 48, 16,
];

#[test]
fn parts_are_divided(rt: HostRuntime) {
    let mut space = whole();
    for words in SHARES {
        let share = space.share(2);
        assert!(rt; share.is_some() && share == Some(words));
        space = space.child(2, 1);
    }
    assert!(rt; space.share(2).is_none());
}

// A space of twenty words, in which a frame has taken five.
const FRAMED: Space = Space {
    low: 100,
    high: 120,
    frames: 113,
    blocks: 120,
};

// A space of twenty words, in which a frame has taken five and a block the other seven.
const FULL: Space = Space {
    low: 100,
    high: 120,
    frames: 113,
    blocks: 113,
};

#[test]
fn frames_and_blocks_meet(rt: HostRuntime) {
    let space = Space::whole(100, 20);
    assert!(rt; space.frame(13).is_none());
    assert!(rt; space.frame(5) == Some(FRAMED));
    assert!(rt; FRAMED.block(8).is_none());
    assert!(rt; FRAMED.block(7) == Some((113, FULL)));
    assert!(rt; FULL.free() == 0);
}

#[test]
fn a_heap_fills(rt: HostRuntime) {
    assert!(rt; heap(0, 4, 5) == (4, None));
    assert!(rt; heap(4, 4, 1) == (4, None));
    assert!(rt; heap(0, 4, 4) == (4, Some(0)));
}

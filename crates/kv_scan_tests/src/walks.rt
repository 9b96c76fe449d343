use crate::desk::Desk;
use rand_pcg::Pcg32;
use rand_pcg::rand_core::Rng;
use std::test::Fail;

#[test]
fn a_scan_folds_what_stood_at_its_stamp_whatever_is_changed(rt: HostRuntime) -> Result<(), Fail> {
    let alloc = rt.alloc();
    let mut draw = Pcg32::new(11, 13);
    for round in 0..100u32 {
        let mut desk = Desk::new(alloc)?;
        desk.change_some(&mut draw, 12)?;
        // From `a` to `h`, up to a key at or behind it: empty, of one key, of all.
        let low = b'a' + (draw.next_u32() % 8) as u8;
        let high = low + (draw.next_u32() % 9) as u8;
        assert!(rt; desk.prepare(1, low, high)?, "round {round}");
        // The scan's stamp is above what was told, and among the changes that follow.
        let told = desk.stamp();
        let at = told.saturating_add(u64::from(1 + draw.next_u32() % 4 * 4));
        desk.change_some(&mut draw, 5)?;
        assert!(rt; desk.start(1, at)?, "round {round}");
        assert_eq!(rt; desk.held(1), 0, "round {round}");
        let mut result = None;
        for _ in 0..9 {
            let count = draw.next_u32() % 3;
            desk.change_some(&mut draw, count)?;
            if result.is_none() {
                result = desk.walk(1)?;
            }
        }
        let sum = desk.sum_at(at, low, high);
        match result {
            None => assert!(rt; false, "round {round}: the walk doesn't end"),
            Some(bytes) => assert_eq!(rt;
                bytes.as_slice(),
                sum.to_le_bytes().as_slice(),
                "round {round}"
            ),
        }
    }
    Ok(())
}

use crate::for_each_busy;
use std::test::Fail;

#[test]
fn each_place_is_called_once(rt: HostRuntime) -> Result<(), Fail> {
    for busy in [
        [false, false, false, false, false],
        [true, true, true, true, true],
        [true, false, false, false, true],
        [false, false, true, false, false],
    ] {
        let mut places = [10, 20, 30, 40, 50];
        for_each_busy(
            &rt,
            &mut places,
            &busy,
            &|at, place: &mut usize| { *place = place.wrapping_add(at) },
        );
        assert_eq!(rt; places, [10, 21, 32, 43, 54]);
    }
    Ok(())
}

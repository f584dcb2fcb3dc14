// Numbers read and written at the last place where there is room for them, and at the next, where there is none.
ghost use Rattle.rules.specs.Records.{id_size, id_number};

use crate::{Number, Word, get_id, put_id};
use rules::Id;

// A number of more than 8 bytes.
impl Number for Id {
    ghost width = { id_size };

    ghost value = { id_number };

    fn read_at(b: &[u8], at: usize) -> Id {
        get_id(b, at)
    }

    fn write_at(self, b: &mut [u8], at: usize) {
        put_id(b, at, self)
    }
}

const BYTES: [u8; 18] = [
    1, 2, 3, 4, 5, 6, 7, 8, 9, 10, 11, 12, 13, 14, 15, 16, 17, 18,
];

#[test]
fn numbers_read(rt: HostRuntime) {
    let b = &BYTES;
    assert_eq!(rt; (u8::read_at(b, 17), u8::read_at(b, 18)), (0x12, 0));
    assert_eq!(rt; (u16::read_at(b, 16), u16::read_at(b, 17)), (0x1112, 0));
    assert_eq!(rt;
        (u32::read_at(b, 14), u32::read_at(b, 15)),
        (0x0f10_1112, 0)
    );
    assert_eq!(rt;
        (u64::read_at(b, 10), u64::read_at(b, 11)),
        (0x0b0c_0d0e_0f10_1112, 0)
    );
    assert_eq!(rt; (u8::get_at(b, 17), u8::get_at(b, 18)), (0x12, 0));
    assert_eq!(rt; (u16::get_at(b, 16), u16::get_at(b, 17)), (0x1112, 0));
    assert_eq!(rt; (u32::get_at(b, 14), u32::get_at(b, 15)), (0x0f10_1112, 0));
    assert_eq!(rt;
        (u64::get_at(b, 10), u64::get_at(b, 11)),
        (0x0b0c_0d0e_0f10_1112, 0)
    );
    let wide = Id::read_at(b, 2);
    assert_eq!(rt;
        (wide.upper(), wide.lower()),
        (0x0304_0506_0708_090a, 0x0b0c_0d0e_0f10_1112)
    );
    let none = Id::read_at(b, 3);
    assert_eq!(rt; (none.upper(), none.lower()), (0, 0));
}

#[test]
fn numbers_written(rt: HostRuntime) {
    let mut b = [0; 18];
    1_u8.write_at(&mut b, 18);
    1_u16.write_at(&mut b, 17);
    1_u32.write_at(&mut b, 15);
    1_u64.write_at(&mut b, 11);
    Id::of(1, 1).write_at(&mut b, 3);
    assert_eq!(rt; b, [0; 18], "no room");
    1_u8.write_at(&mut b, 0);
    2_u8.write_at(&mut b, 1);
    Id::of(0x0304_0506_0708_090a, 0x0b0c_0d0e_0f10_1112).write_at(&mut b, 2);
    assert_eq!(rt; b, BYTES);
    0x2122_2324_2526_2728_u64.write_at(&mut b, 10);
    0x3132_3334_u32.write_at(&mut b, 14);
    0x4142_u16.write_at(&mut b, 16);
    0x51_u8.write_at(&mut b, 17);
    let last = [
        1, 2, 3, 4, 5, 6, 7, 8, 9, 10, 0x21, 0x22, 0x23, 0x24, 0x31, 0x32, 0x41, 0x51,
    ];
    assert_eq!(rt; b, last);
}

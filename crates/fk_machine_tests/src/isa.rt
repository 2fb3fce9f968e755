//! Tests of the table of instructions.
use fk_isa::decode;

mod stepping;

#[test]
fn has_no_row_for_words_beside_the_table(rt: HostRuntime) {
    let words = [
        0x0000_0000, // no opcode
        0xffff_ffff,
        0x0000_2063, // a branch with funct3 010
        0x0000_3003, // ld
        0x0000_3023, // sd
        0x0200_1013, // slli by 32
        0x4000_1013, // slli with the bit of srai
        0x4000_1033, // sll with that bit
        0x0000_1067, // jalr with funct3 001
        0x0000_100f, // fence.i
        0x1050_0073, // wfi
        0x3020_0073, // mret
        0x1010_252f, // lr.w with rs2 1
        0x0000_302f, // amoadd.d
        0x2800_202f, // amocas.w
    ];
    for word in words {
        assert!(rt; decode(word).is_none(), "{word:x}");
    }
}

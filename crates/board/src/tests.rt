// Logs with what is printed of them, at the edges of each refusal and of its precedence over the next one, and
// malformed logs with what is told of them.
use crate::settings::read_board;
use crate::text::replay_text;
use script::read_words;
use std::test::Fail;

#[test]
fn logs(rt: HostRuntime) -> Result<(), Fail> {
    for (place, (log, output)) in REPLAYED.iter().enumerate() {
        let report = replay_text(rt.alloc(), log.as_bytes()).map_err(|_| "refused")?;
        assert_eq!(rt; report.as_str(), *output, "log {place}");
    }
    Ok(())
}

// Where the flash of a board begins, its sectors, and the words of each.
#[test]
fn flashes(rt: HostRuntime) -> Result<(), Fail> {
    let cases = [
        ("", 0x1000, 4, 16),
        ("part=1", 0x1000, 4, 16),
        ("part=9B", 0x1000, 4, 16),
        ("part=9F", 0x3D_8000, 8, 0x4000),
        ("part=EF", 0x30_0000, 8, 0x8000),
        ("part=EF base=0", 0, 8, 0x8000),
        ("sectors=32 part=2C", 0x3F_4000, 32, 0x1000),
        ("part=2C words=1", 0x3F_4000, 4, 1),
    ];
    for (text, base, sectors, count) in cases {
        let words = read_words(text.as_bytes()).map_err(|_| "no text")?;
        let plan = read_board(words).map_err(|_| "refused")?;
        let flash = (plan.setup.base, plan.sectors, plan.words);
        assert_eq!(rt; flash, (base, sectors, count), "board {text}");
    }
    Ok(())
}

// The largest flash that is listed is printed whole: 524,288 bytes.
#[test]
fn largest(rt: HostRuntime) -> Result<(), Fail> {
    let report = replay_text(rt.alloc(), b"board part=EF boot=0 data=0\n").map_err(|_| "refused")?;
    assert_eq!(rt; report.as_str().len(), 1_048_601, "bytes");
    Ok(())
}

#[test]
fn malformed(rt: HostRuntime) -> Result<(), Fail> {
    for (log, message) in REFUSED {
        let error = replay_text(rt.alloc(), log).err().ok_or(message)?;
        assert_eq!(rt; format!(in rt.alloc(); "{error}")?.as_str(), message);
    }
    Ok(())
}

// Each log with the whole output.
const REPLAYED: [(&str, &str); 23] = [
    // nothing reaches the bench board
    (
        "",
        "S\tWaiting\n\
M\t0\tFFFFFFFFFFFFFFFFFFFFFFFFFFFFFFFFFFFFFFFFFFFFFFFFFFFFFFFFFFFFFFFFFFFFFFFFFFFFFFFFFFFFFFFFFFFFFFFFFFFFFFFFFFFFFFFFFFFFFFFFFFFFFFFFFFFFFFFFFFFFFFFFFFFFFFFFFFFFFFFFFFFFFFFFFFFFFFFFFFFFFFFFFFFFFFFFFFFFFFFFFFFFFFFFFFFFFFFFFFFFFFFFFFFFFFFFFFFFFFFFFFFFFFFFFFFFFFFF\n\
M\t2\tFFFFFFFFFFFFFFFFFFFFFFFFFFFFFFFFFFFFFFFFFFFFFFFFFFFFFFFFFFFFFFFFFFFFFFFFFFFFFFFFFFFFFFFFFFFFFFFFFFFFFFFFFFFFFFFFFFFFFFFFFFFFFFFF\n\
M\t3\tFFFFFFFFFFFFFFFFFFFFFFFFFFFFFFFFFFFFFFFFFFFFFFFFFFFFFFFFFFFFFFFFFFFFFFFFFFFFFFFFFFFFFFFFFFFFFFFFFFFFFFFFFFFFFFFFFFFFFFFFFFFFFFFF\n",
    ),
    // without a connection: a code that is unknown, and then one that is not allowed
    (
        "board sectors=2 words=2 boot=4 data=5\n\
0B081880#FF01000000000000\n\
0B081880#0202FF0900000000\n\
0B081880#0703000000000000\n\
0B081880#1304FF0000000000\n\
0B081880#2100000000000000\n\
0B081880#0000000000000000\n\
0B081880#0105000000000000\n\
0B081880#0006000000000000\n\
0B081880#0007000000000000\n",
        "F\tFF01000000000000\tFF30010000000000\n\
F\t0202FF0900000000\tFF33020000000000\n\
F\t0703000000000000\tFF33030000000000\n\
F\t1304FF0000000000\tFF33040000000000\n\
F\t2100000000000000\t-\n\
F\t0000000000000000\tFF30000000000000\n\
F\t0105000000000000\tFF00050100000100\n\
F\t0006000000000000\tFF30060000000000\n\
F\t0007000000000000\tFF30070000000000\n\
S\tConnected\n\
M\t0\tFFFFFFFFFFFFFFFF\n\
M\t2\tFFFFFFFF\n\
M\t3\tFFFFFFFFFF\n",
    ),
    // Set MTA: byte 2, and the extension
    (
        "board sectors=2 words=2 boot=4 data=5\n\
0B081880#0101000000000000\n\
0B081880#0202010900000000\n\
0B081880#0203010000000000\n\
0B081880#0204000400000000\n\
0B081880#0205000300000000\n",
        "F\t0101000000000000\tFF00010100000100\n\
F\t0202010900000000\tFF32020000000000\n\
F\t0203010000000000\tFF32030000000000\n\
F\t0204000400000000\tFF32040000000000\n\
F\t0205000300000000\tFF00050000000000\n\
S\tConnected\n\
M\t0\tFFFFFFFFFFFFFFFF\n\
M\t2\tFFFFFFFF\n\
M\t3\tFFFFFFFFFF\n",
    ),
    // Unlock: byte 2, the address, and the password
    (
        "board sectors=2 words=2 boot=4 data=5\n\
0B081880#0101000000000000\n\
0B081880#1302011234000000\n\
0B081880#1303021234000000\n\
0B081880#0204000100000001\n\
0B081880#1305031234000000\n\
0B081880#1306021234000000\n\
0B081880#0207000100000000\n\
0B081880#1308010000000000\n\
0B081880#1309023412000000\n\
0B081880#130A021234000000\n\
0B081880#130B02ABCD000000\n\
0B081880#130C029876000000\n",
        "F\t0101000000000000\tFF00010100000100\n\
F\t1302011234000000\tFF31020000000000\n\
F\t1303021234000000\tFF33030000000000\n\
F\t0204000100000001\tFF00040000000000\n\
F\t1305031234000000\tFF31050000000000\n\
F\t1306021234000000\tFF33060000000000\n\
F\t0207000100000000\tFF00070000000000\n\
F\t1308010000000000\tFF31080000000000\n\
F\t1309023412000000\tFF35090000000000\n\
F\t130A021234000000\tFF000A0100000002\n\
F\t130B02ABCD000000\tFF000B0100000002\n\
F\t130C029876000000\tFF000C0100000002\n\
S\tConnected\n\
M\t0\tFFFFFFFFFFFFFFFF\n\
M\t2\tFFFFFFFF\n\
M\t3\tFFFFFFFFFF\n",
    ),
    // Download: the size, the register, the lock, and the room
    (
        "board sectors=2 words=2 boot=4 data=5\n\
0B081880#0101000000000000\n\
0B081880#0202000100000000\n\
0B081880#0303060000000000\n\
0B081880#0304000000000000\n\
0B081880#0305050000000000\n\
0B081880#2306000000000000\n\
0B081880#02070000FFFFFFFF\n\
0B081880#0308060000000000\n\
0B081880#0309010000000000\n\
0B081880#230A000000000000\n\
0B081880#020B000100000000\n\
0B081880#130C021234000000\n\
0B081880#020D000000001000\n\
0B081880#030E000000000000\n\
0B081880#030F050102030405\n\
0B081880#2310010203040506\n\
0B081880#0311030607080000\n\
0B081880#0312010000000000\n\
0B081880#0213000000000FFF\n\
0B081880#0314010000000000\n\
0B081880#0215000000001004\n\
0B081880#0316010000000000\n",
        "F\t0101000000000000\tFF00010100000100\n\
F\t0202000100000000\tFF00020000000000\n\
F\t0303060000000000\tFF31030000000000\n\
F\t0304000000000000\tFF31040000000000\n\
F\t0305050000000000\tFF36050000000000\n\
F\t2306000000000000\tFF36060000000000\n\
F\t02070000FFFFFFFF\tFF00070000000000\n\
F\t0308060000000000\tFF31080000000000\n\
F\t0309010000000000\tFF35090000000000\n\
F\t230A000000000000\tFF350A0000000000\n\
F\t020B000100000000\tFF000B0000000000\n\
F\t130C021234000000\tFF000C0100000002\n\
F\t020D000000001000\tFF000D0000000000\n\
F\t030E000000000000\tFF310E0000000000\n\
F\t030F050102030405\tFF000F0000001002\n\
F\t2310010203040506\tFF32100000000000\n\
F\t0311030607080000\tFF00110000001004\n\
F\t0312010000000000\tFF32120000000000\n\
F\t0213000000000FFF\tFF00130000000000\n\
F\t0314010000000000\tFF32140000000000\n\
F\t0215000000001004\tFF00150000000000\n\
F\t0316010000000000\tFF32160000000000\n\
S\tConnected\n\
M\t0\tFFFFFFFFFFFFFFFF\n\
M\t2\tFFFFFFFF\n\
M\t3\tFFFFFFFFFF\n",
    ),
    // Clear: the register, the lock, and the mask; an EEPROM has no mask
    (
        "board sectors=2 words=2 boot=4 data=5\n\
memory 0 0102030405060708\n\
memory 3 1112131415\n\
0B081880#0101000000000000\n\
0B081880#0202000100000000\n\
0B081880#1003000000000000\n\
0B081880#0204000000000000\n\
0B081880#1005000000000000\n\
0B081880#0206000100000000\n\
0B081880#1307021234000000\n\
0B081880#1308029876000000\n\
0B081880#0209000000000000\n\
0B081880#100A000000000000\n\
0B081880#100B000000040000\n\
0B081880#100C000000050000\n\
0B081880#100D800000010000\n\
0B081880#100E000000010000\n\
0B081880#020F000300000000\n\
0B081880#1010FFFFFFFF0000\n\
0B081880#1011000000000000\n\
0B081880#0212000200000000\n\
0B081880#1013000000010000\n",
        "F\t0101000000000000\tFF00010100000100\n\
F\t0202000100000000\tFF00020000000000\n\
F\t1003000000000000\tFF36030000000000\n\
F\t0204000000000000\tFF00040000000000\n\
F\t1005000000000000\tFF35050000000000\n\
F\t0206000100000000\tFF00060000000000\n\
F\t1307021234000000\tFF00070100000002\n\
F\t1308029876000000\tFF00080100000002\n\
F\t0209000000000000\tFF00090000000000\n\
F\t100A000000000000\tFF320A0000000000\n\
F\t100B000000040000\tFF320B0000000000\n\
F\t100C000000050000\tFF320C0000000000\n\
F\t100D800000010000\tFF320D0000000000\n\
F\t100E000000010000\tFF000E0000000000\n\
F\t020F000300000000\tFF000F0000000000\n\
F\t1010FFFFFFFF0000\tFF00100000000000\n\
F\t1011000000000000\tFF00110000000000\n\
F\t0212000200000000\tFF00120000000000\n\
F\t1013000000010000\tFF35130000000000\n\
S\tConnected\n\
M\t0\t01020304FFFFFFFF\n\
M\t2\tFFFFFFFF\n\
M\t3\tFFFFFFFFFF\n",
    ),
    // a record: the register, the lock, none, half an address, the CRC, and a value that is not taken
    (
        "board sectors=2 words=2 boot=4 data=5\n\
memory 0 FFFFFFFFFFFE\n\
0B081880#0101000000000000\n\
0B081880#0202000100000000\n\
0B081880#0E0300000001FFFF\n\
0B081880#0204000000000000\n\
0B081880#0E0500000001FFFF\n\
0B081880#0206000100000000\n\
0B081880#1307021234000000\n\
0B081880#0208000000001000\n\
0B081880#0E0900000001FFFF\n\
0B081880#030A01AA00000000\n\
0B081880#0E0B000000013F3F\n\
0B081880#0E0C000000010000\n\
0B081880#030D03BBCCDD0000\n\
0B081880#0E0E000000010000\n\
0B081880#0E0F0000000180C4\n\
0B081880#0210000000001002\n\
0B081880#031104000000FF00\n\
0B081880#0E12000000010000\n\
0B081880#0E13000000016440\n\
0B081880#0214000000001002\n\
0B081880#0315020102000000\n\
0B081880#0E1680000000E181\n\
0B081880#03170203FE000000\n\
0B081880#0E1800000002C080\n",
        "F\t0101000000000000\tFF00010100000100\n\
F\t0202000100000000\tFF00020000000000\n\
F\t0E0300000001FFFF\tFF36030000000000\n\
F\t0204000000000000\tFF00040000000000\n\
F\t0E0500000001FFFF\tFF35050000000000\n\
F\t0206000100000000\tFF00060000000000\n\
F\t1307021234000000\tFF00070100000002\n\
F\t0208000000001000\tFF00080000000000\n\
F\t0E0900000001FFFF\tFF31090000000000\n\
F\t030A01AA00000000\tFF000A0000001000\n\
F\t0E0B000000013F3F\tFF320B0000000000\n\
F\t0E0C000000010000\tFF320C0000000000\n\
F\t030D03BBCCDD0000\tFF000D0000001002\n\
F\t0E0E000000010000\tFF7F0E0000000000\n\
F\t0E0F0000000180C4\tFF000F0080C40000\n\
F\t0210000000001002\tFF00100000000000\n\
F\t031104000000FF00\tFF00110000001004\n\
F\t0E12000000010000\tFF7F120000000000\n\
F\t0E13000000016440\tFF00130064400000\n\
F\t0214000000001002\tFF00140000000000\n\
F\t0315020102000000\tFF00150000001003\n\
F\t0E1680000000E181\tFF36160000000000\n\
F\t03170203FE000000\tFF00170000001004\n\
F\t0E1800000002C080\tFF7F180000000000\n\
S\tConnected\n\
M\t0\tAABBCCDD000000FF\n\
M\t2\tFFFFFFFF\n\
M\t3\tFFFFFFFFFF\n",
    ),
    // an image: the register, the lock, a record, the CRC; and the seal
    (
        "board sectors=2 words=2 boot=4 data=5\n\
0B081880#0101000000000000\n\
0B081880#0202000100000000\n\
0B081880#0E0300000000FFFF\n\
0B081880#0204000000000000\n\
0B081880#0E05000000000000\n\
0B081880#0206000100000000\n\
0B081880#1307021234000000\n\
0B081880#0208000000001000\n\
0B081880#0309021234000000\n\
0B081880#0E0A000000000000\n\
0B081880#0E0B00000002C70C\n\
0B081880#0E0C000000000000\n\
0B081880#0E0D00000000C70C\n\
0B081880#070E020000000000\n\
0B081880#070F010000000000\n\
0B081880#0110000000000000\n",
        "F\t0101000000000000\tFF00010100000100\n\
F\t0202000100000000\tFF00020000000000\n\
F\t0E0300000000FFFF\tFF36030000000000\n\
F\t0204000000000000\tFF00040000000000\n\
F\t0E05000000000000\tFF35050000000000\n\
F\t0206000100000000\tFF00060000000000\n\
F\t1307021234000000\tFF00070100000002\n\
F\t0208000000001000\tFF00080000000000\n\
F\t0309021234000000\tFF00090000001001\n\
F\t0E0A000000000000\tFF310A0000000000\n\
F\t0E0B00000002C70C\tFF000B00C70C0000\n\
F\t0E0C000000000000\tFF7F0C0000000000\n\
F\t0E0D00000000C70C\tFF000D00C70C0000\n\
F\t070E020000000000\tFF320E0000000000\n\
F\t070F010000000000\tFF000F0000000000\n\
F\t0110000000000000\t-\n\
S\tRunning\n\
M\t0\t1234FFFFFFFFFFFF\n\
M\t2\tFFFFC70C\n\
M\t3\tFFFFFFFFFF\n",
    ),
    // no place for the seal
    (
        "board sectors=1 words=1 boot=1 data=0\n\
0B081880#0101000000000000\n\
0B081880#0202000100000000\n\
0B081880#1303021234000000\n\
0B081880#0204000000000000\n\
0B081880#0E05000000000000\n\
0B081880#0E0600000000FFFF\n\
0B081880#0707010000000000\n\
0B081880#0108000000000000\n",
        "F\t0101000000000000\tFF00010100000100\n\
F\t0202000100000000\tFF00020000000000\n\
F\t1303021234000000\tFF00030100000002\n\
F\t0204000000000000\tFF00040000000000\n\
F\t0E05000000000000\tFF7F050000000000\n\
F\t0E0600000000FFFF\tFF36060000000000\n\
F\t0707010000000000\tFF00070000000000\n\
F\t0108000000000000\tFF00080100000100\n\
S\tConnected\n\
M\t0\tFFFF\n\
M\t2\tFF\n\
M\t3\t\n",
    ),
    // an image of an EEPROM is not sealed
    (
        "board sectors=1 words=1 boot=3 data=1\n\
0B081880#0101000000000000\n\
0B081880#0202000100000000\n\
0B081880#130302ABCD000000\n\
0B081880#1304029876000000\n\
0B081880#0205000200000001\n\
0B081880#0306020908000000\n\
0B081880#0E07000000012606\n\
0B081880#0208000300000000\n\
0B081880#0309010700000000\n\
0B081880#0E0A0000000182FE\n\
0B081880#0E0B00000000C0E7\n\
0B081880#030C010000000000\n",
        "F\t0101000000000000\tFF00010100000100\n\
F\t0202000100000000\tFF00020000000000\n\
F\t130302ABCD000000\tFF00030100000002\n\
F\t1304029876000000\tFF00040100000002\n\
F\t0205000200000001\tFF00050000000000\n\
F\t0306020908000000\tFF00060200000003\n\
F\t0E07000000012606\tFF00070226060000\n\
F\t0208000300000000\tFF00080000000000\n\
F\t0309010700000000\tFF00090300000001\n\
F\t0E0A0000000182FE\tFF000A0382FE0000\n\
F\t0E0B00000000C0E7\tFF000B03C0E70000\n\
F\t030C010000000000\tFF320C0000000000\n\
S\tConnected\n\
M\t0\tFFFF\n\
M\t2\tFF0908\n\
M\t3\t07\n",
    ),
    // repeated frames: one that is accepted, one that is refused, and one of which another was between
    (
        "board sectors=2 words=2 boot=4 data=5\n\
0B081880#0101000000000000\n\
0B081880#0101000000000000\n\
0B081880#0201000100000000\n\
0B081880#1302021234000000\n\
0B081880#0203000000001000\n\
0B081880#0304015500000000\n\
0B081880#0304015500000000\n\
0B081880#0304015600000000\n\
0B081880#0304015500000000\n\
0B081880#0E05000000000000\n\
0B081880#0E05000000000000\n\
0B081880#0101000000000000\n\
0B081880#0101000000000000\n\
0B081880#0306010000000000\n",
        "F\t0101000000000000\tFF00010100000100\n\
F\t0101000000000000\tFF00010100000100\n\
F\t0201000100000000\tFF00010000000000\n\
F\t1302021234000000\tFF00020100000002\n\
F\t0203000000001000\tFF00030000000000\n\
F\t0304015500000000\tFF00040000001000\n\
F\t0304015500000000\tFF00040000001000\n\
F\t0304015600000000\tFF00040000001001\n\
F\t0304015500000000\tFF00040000001001\n\
F\t0E05000000000000\tFF31050000000000\n\
F\t0E05000000000000\tFF31050000000000\n\
F\t0101000000000000\tFF00010100000100\n\
F\t0101000000000000\tFF00010100000100\n\
F\t0306010000000000\tFF35060000000000\n\
S\tConnected\n\
M\t0\tFFFFFFFFFFFFFFFF\n\
M\t2\tFFFFFFFF\n\
M\t3\tFFFFFFFFFF\n",
    ),
    // Disconnect: byte 2; and nothing but Connect is allowed then
    (
        "board sectors=2 words=2 boot=4 data=5\n\
0B081880#0101000000000000\n\
0B081880#0702000000000000\n\
0B081880#0703010000000000\n\
0B081880#0704010000000000\n\
0B081880#0205000000000000\n\
0B081880#FF06000000000000\n\
0B081880#0107000000000000\n\
0B081880#0208000000000000\n",
        "F\t0101000000000000\tFF00010100000100\n\
F\t0702000000000000\tFF32020000000000\n\
F\t0703010000000000\tFF00030000000000\n\
F\t0704010000000000\tFF33040000000000\n\
F\t0205000000000000\tFF33050000000000\n\
F\tFF06000000000000\tFF30060000000000\n\
F\t0107000000000000\tFF00070100000100\n\
F\t0208000000000000\tFF00080000000000\n\
S\tConnected\n\
M\t0\tFFFFFFFFFFFFFFFF\n\
M\t2\tFFFFFFFF\n\
M\t3\tFFFFFFFFFF\n",
    ),
    // 1,999 ticks, and the last of them
    (
        "board sectors=2 words=2 boot=4 data=5\n\
tick 1999\n\
0B081880#0201000000000000\n\
tick 1\n\
0B081880#0202000000000000\n\
tick 0x10\n",
        "F\t0201000000000000\tFF33010000000000\n\
F\t0202000000000000\tFF33020000000000\n\
S\tIdle\n\
M\t0\tFFFFFFFFFFFFFFFF\n\
M\t2\tFFFFFFFF\n\
M\t3\tFFFFFFFFFF\n",
    ),
    // 2,000 ticks with a seal at the start: the application runs
    (
        "board sectors=2 words=2 boot=4 data=5\n\
memory 0 1234\n\
memory 2 FFFFC70C\n\
tick 2000\n\
0B081880#0101000000000000\n\
0B081880#2102008100010000\n",
        "F\t0101000000000000\t-\n\
F\t2102008100010000\t-\n\
S\tRunning\n\
M\t0\t1234FFFFFFFFFFFF\n\
M\t2\tFFFFC70C\n\
M\t3\tFFFFFFFFFF\n",
    ),
    // 16,000 ticks
    (
        "board wait=16000 sectors=1 words=1 boot=2 data=0\n\
memory 0 1234\n\
memory 2 C70C\n\
tick 15999\n\
tick 0\n",
        "S\tWaiting\n\
M\t0\t1234\n\
M\t2\tC70C\n\
M\t3\t\n",
    ),
    // a host that is connected is not waited for
    (
        "board wait=16000 sectors=1 words=1 boot=0 data=0\n\
0B081880#0101000000000000\n\
tick 1000000\n",
        "F\t0101000000000000\tFF00010100000100\n\
S\tConnected\n\
M\t0\tFFFF\n\
M\t2\t\n\
M\t3\t\n",
    ),
    // Action Service has no reply, and is not stored
    (
        "board sectors=2 words=2 boot=4 data=5\n\
0B081880#2101008100050000\n\
0B081880#0101000000000000\n\
0B081880#2102008100060000\n\
0B081880#0101000000000000\n\
0B081880#2103000000000000\n",
        "F\t2101008100050000\t-\n\
F\t0101000000000000\tFF00010100000100\n\
F\t2102008100060000\t-\n\
F\t0101000000000000\tFF00010100000100\n\
F\t2103000000000000\t-\n\
S\tConnected\n\
M\t0\tFFFFFFFFFFFFFFFF\n\
M\t2\tFFFFFFFF\n\
M\t3\tFFFFFFFFFF\n",
    ),
    // frames of other nodes, and of other lengths
    (
        "board sectors=2 words=2 boot=4 data=5\n\
0B081881#0101000000000000\n\
1B081880#0101000000000000\n\
123#01\n\
0B081880#\n\
0B081880#01010000000000\n\
0b081880#010100000000000000\n\
B081880#0101000000000000\n\
1#abababababababababababababababababababababababababababababababababababababababababababababababababababababababababababababababab\n",
        "F\t0101000000000000\t-\n\
F\t0101000000000000\t-\n\
F\t01\t-\n\
F\t\t-\n\
F\t01010000000000\t-\n\
F\t010100000000000000\t-\n\
F\t0101000000000000\tFF00010100000100\n\
F\tABABABABABABABABABABABABABABABABABABABABABABABABABABABABABABABABABABABABABABABABABABABABABABABABABABABABABABABABABABABABABABABAB\t-\n\
S\tConnected\n\
M\t0\tFFFFFFFFFFFFFFFF\n\
M\t2\tFFFFFFFF\n\
M\t3\tFFFFFFFFFF\n",
    ),
    // other numbers of a board, and an address that counts modulo 2^32
    (
        "board wait=2000 minor=0xFe major=255 data=3 boot=2 part=0xaBcD words=3 sectors=1 base=FFFFFFFD\n\
memory 3 AA\n\
memory 0 0102\n\
0B081880#0101000000000000\n\
0B081880#0202000100000000\n\
0B081880#1303021234000000\n\
0B081880#02040000FFFFFFFF\n\
0B081880#0305020506000000\n\
0B081880#0E0600000001E282\n\
0B081880#0307010000000000\n\
0B081880#02080000FFFFFFFD\n\
0B081880#0309020002000000\n",
        "F\t0101000000000000\tFF0001FFFEABCD00\n\
F\t0202000100000000\tFF00020000000000\n\
F\t1303021234000000\tFF00030100000002\n\
F\t02040000FFFFFFFF\tFF00040000000000\n\
F\t0305020506000000\tFF00050000000000\n\
F\t0E0600000001E282\tFF000600E2820000\n\
F\t0307010000000000\tFF32070000000000\n\
F\t02080000FFFFFFFD\tFF00080000000000\n\
F\t0309020002000000\tFF000900FFFFFFFE\n\
S\tConnected\n\
M\t0\t0102FFFF0506\n\
M\t2\tFFFF\n\
M\t3\tAAFFFF\n",
    ),
    // a part ID that is listed: its base, and its four sectors
    (
        "board words=1 boot=0 part=2C data=0\n\
0B081880#0101000000000000\n\
0B081880#0202000100000000\n\
0B081880#1303021234000000\n\
0B081880#02040000003F3FFF\n\
0B081880#0305010000000000\n\
0B081880#02060000003F4003\n\
0B081880#0307020506000000\n\
0B081880#0308010000000000\n",
        "F\t0101000000000000\tFF00010100002C00\n\
F\t0202000100000000\tFF00020000000000\n\
F\t1303021234000000\tFF00030100000002\n\
F\t02040000003F3FFF\tFF00040000000000\n\
F\t0305010000000000\tFF32050000000000\n\
F\t02060000003F4003\tFF00060000000000\n\
F\t0307020506000000\tFF000700003F4004\n\
F\t0308010000000000\tFF32080000000000\n\
S\tConnected\n\
M\t0\tFFFFFFFFFFFFFFFF\n\
M\t2\t\n\
M\t3\t\n",
    ),
    // the base and the sectors that are named, before it and behind it
    (
        "board base=2000 part=0x2c words=1 sectors=2 boot=0 data=0\n\
0B081880#0101000000000000\n\
0B081880#0202000100000000\n\
0B081880#1303021234000000\n\
0B081880#0204000000001FFF\n\
0B081880#0305010000000000\n\
0B081880#0206000000002001\n\
0B081880#0307020506000000\n\
0B081880#0308010000000000\n",
        "F\t0101000000000000\tFF00010100002C00\n\
F\t0202000100000000\tFF00020000000000\n\
F\t1303021234000000\tFF00030100000002\n\
F\t0204000000001FFF\tFF00040000000000\n\
F\t0305010000000000\tFF32050000000000\n\
F\t0206000000002001\tFF00060000000000\n\
F\t0307020506000000\tFF00070000002002\n\
F\t0308010000000000\tFF32080000000000\n\
S\tConnected\n\
M\t0\tFFFFFFFF\n\
M\t2\t\n\
M\t3\t\n",
    ),
    // a part ID that is not listed
    (
        "board part=2D boot=0 data=0\n\
0B081880#0101000000000000\n\
0B081880#0202000100000000\n\
0B081880#1303021234000000\n\
0B081880#0204000000000FFF\n\
0B081880#0305010000000000\n\
0B081880#020600000000103F\n\
0B081880#0307020506000000\n\
0B081880#0308010000000000\n",
        "F\t0101000000000000\tFF00010100002D00\n\
F\t0202000100000000\tFF00020000000000\n\
F\t1303021234000000\tFF00030100000002\n\
F\t0204000000000FFF\tFF00040000000000\n\
F\t0305010000000000\tFF32050000000000\n\
F\t020600000000103F\tFF00060000000000\n\
F\t0307020506000000\tFF00070000001040\n\
F\t0308010000000000\tFF32080000000000\n\
S\tConnected\n\
M\t0\tFFFFFFFFFFFFFFFFFFFFFFFFFFFFFFFFFFFFFFFFFFFFFFFFFFFFFFFFFFFFFFFFFFFFFFFFFFFFFFFFFFFFFFFFFFFFFFFFFFFFFFFFFFFFFFFFFFFFFFFFFFFFFFFFFFFFFFFFFFFFFFFFFFFFFFFFFFFFFFFFFFFFFFFFFFFFFFFFFFFFFFFFFFFFFFFFFFFFFFFFFFFFFFFFFFFFFFFFFFFFFFFFFFFFFFFFFFFFFFFFFFFFFFFFFFFFFFFF\n\
M\t2\t\n\
M\t3\t\n",
    ),
    // comments, empty lines, white space, CR LF, and a line of candump
    (
        "# a log\r\n\r\n \t \n\
board\tboot=0  data=0 words=1 sectors=1 \r\n\
#tick x\r\n  (1753430401.118230)  can0\t0b081880#0101000000000000 \r\n\n\
tick 0x1\r\n\
() vcan1 7FF#\r",
        "F\t0101000000000000\tFF00010100000100\n\
F\t\t-\n\
S\tConnected\n\
M\t0\tFFFF\n\
M\t2\t\n\
M\t3\t\n",
    ),
];

// Each log with the message.
const REFUSED: [(&[u8], &str); 59] = [
    (
        b"frame\n",
        "line 1: \"frame\" begins no line; a line is a frame ID#DATA, tick N, board NAME=VALUE .. or memory SPACE CONTENTS",
    ),
    (
        b"TICK 1\n",
        "line 1: \"TICK\" begins no line; a line is a frame ID#DATA, tick N, board NAME=VALUE .. or memory SPACE CONTENTS",
    ),
    (
        b"\n # no comment\n",
        "line 2: \"#\" has no identifier of a frame, which is 1 to 8 hex digits, and at most 1FFFFFFF",
    ),
    (
        b"#DEAD\n#00\n ##\n",
        "line 3: \"##\" has no identifier of a frame, which is 1 to 8 hex digits, and at most 1FFFFFFF",
    ),
    (
        b"123456789#00\n",
        "line 1: \"123456789#00\" has no identifier of a frame, which is 1 to 8 hex digits, and at most 1FFFFFFF",
    ),
    (
        b"20000000#00\n",
        "line 1: \"20000000#00\" has no identifier of a frame, which is 1 to 8 hex digits, and at most 1FFFFFFF",
    ),
    (
        b"0x1#00\n",
        "line 1: \"0x1#00\" has no identifier of a frame, which is 1 to 8 hex digits, and at most 1FFFFFFF",
    ),
    (
        b"+1#00\n",
        "line 1: \"+1#00\" has no identifier of a frame, which is 1 to 8 hex digits, and at most 1FFFFFFF",
    ),
    (
        b"123#R\n",
        "line 1: \"123#R\" is a remote frame, which asks for bytes and has none",
    ),
    (
        b"123##112\n",
        "line 1: \"123##112\" is a frame of CAN FD, with flags behind ##",
    ),
    (
        b"123#0\n",
        "line 1: \"123#0\" has no bytes of a frame, which are pairs of hex digits, and at most 64",
    ),
    (
        b"123#0G\n",
        "line 1: \"123#0G\" has no bytes of a frame, which are pairs of hex digits, and at most 64",
    ),
    (
        b"123#11.22\n",
        "line 1: \"123#11.22\" has no bytes of a frame, which are pairs of hex digits, and at most 64",
    ),
    (
        b"1#0000000000000000000000000000000000000000000000000000000000000000000000000000000000000000000000000000000000000000000000000000000000\n",
        "line 1: \"1#0000000000000000000000000000000000000000000000000000000000000000000000000000000000000000000000000000000000000000000000000000000000\" has no bytes of a frame, which are pairs of hex digits, and at most 64",
    ),
    (b"123# 00\n", "line 1: \"00\" is a word too many"),
    (b"(1.5)\n", "line 1: the interface is missing"),
    (b"(1.5) can0\n", "line 1: the frame is missing"),
    (
        b"(1.5) can0 tick 1\n",
        "line 1: \"tick\" begins no line; a line is a frame ID#DATA, tick N, board NAME=VALUE .. or memory SPACE CONTENTS",
    ),
    (b"(1.5) can0 123# R\n", "line 1: \"R\" is a word too many"),
    (
        b"(1.5 can0 123#\n",
        "line 1: \"(1.5\" begins no line; a line is a frame ID#DATA, tick N, board NAME=VALUE .. or memory SPACE CONTENTS",
    ),
    (b"tick\n", "line 1: the number of ticks is missing"),
    (
        b"tick -1\n",
        "line 1: \"-1\" gives no number for the number of ticks; a number is digits, or 0x and hex digits, and below 2^64",
    ),
    (b"tick 1 2\n", "line 1: \"2\" is a word too many"),
    (
        b"tick 1000001\n",
        "line 1: a log has at most 1,000,000 ticks",
    ),
    (
        b"tick 600000\ntick 400000\ntick 1\n",
        "line 3: a log has at most 1,000,000 ticks",
    ),
    (
        b"tick 18446744073709551615\n",
        "line 1: a log has at most 1,000,000 ticks",
    ),
    (
        b"board base\n",
        "line 1: \"base\" is no setting of a board; they are base=, sectors=, words=, part=, boot=, data=, major=, minor= and wait=",
    ),
    (
        b"board size=1\n",
        "line 1: \"size=1\" is no setting of a board; they are base=, sectors=, words=, part=, boot=, data=, major=, minor= and wait=",
    ),
    (
        b"board Base=1\n",
        "line 1: \"Base=1\" is no setting of a board; they are base=, sectors=, words=, part=, boot=, data=, major=, minor= and wait=",
    ),
    (
        b"board base=100000000\n",
        "line 1: \"base=100000000\" stands where base= and at most 32 bits in hex digits belongs",
    ),
    (
        b"board sectors=A\n",
        "line 1: \"sectors=A\" stands where sectors= and a number belongs",
    ),
    (
        b"board words=\n",
        "line 1: \"words=\" stands where words= and a number belongs",
    ),
    (
        b"board part=10000\n",
        "line 1: \"part=10000\" stands where part= and at most 16 bits in hex digits belongs",
    ),
    (
        b"board boot=1048577\n",
        "line 1: \"boot=1048577\" stands where boot= and a number of at most 1,048,576 belongs",
    ),
    (
        b"board data=x\n",
        "line 1: \"data=x\" stands where data= and a number of at most 1,048,576 belongs",
    ),
    (
        b"board major=256\n",
        "line 1: \"major=256\" stands where major= and a number of at most 255 belongs",
    ),
    (
        b"board minor=256\n",
        "line 1: \"minor=256\" stands where minor= and a number of at most 255 belongs",
    ),
    (
        b"board wait=2001\n",
        "line 1: \"wait=2001\" stands where wait=2000 or wait=16000 belongs",
    ),
    (
        b"board base=1 part=2 base=x\n",
        "line 1: \"base=x\" sets again what was set before it",
    ),
    (
        b"board sectors=0\n",
        "line 1: a flash has 1 to 32 sectors, each of at least one word, and at most 1,048,576 bytes",
    ),
    (
        b"board sectors=33\n",
        "line 1: a flash has 1 to 32 sectors, each of at least one word, and at most 1,048,576 bytes",
    ),
    (
        b"board words=0\n",
        "line 1: a flash has 1 to 32 sectors, each of at least one word, and at most 1,048,576 bytes",
    ),
    (
        b"board sectors=2 words=262145\n",
        "line 1: a flash has 1 to 32 sectors, each of at least one word, and at most 1,048,576 bytes",
    ),
    (
        b"board words=18446744073709551615\n",
        "line 1: a flash has 1 to 32 sectors, each of at least one word, and at most 1,048,576 bytes",
    ),
    (
        b"board\nboard\n",
        "line 2: an earlier line says what the board is made of",
    ),
    (
        b"tick 0\nboard\n",
        "line 2: the line belongs before the first frame or tick",
    ),
    (
        b"123#\nmemory 0 00\n",
        "line 2: the line belongs before the first frame or tick",
    ),
    (b"memory\n", "line 1: the space is missing"),
    (
        b"memory 1 00\n",
        "line 1: there is no memory \"1\"; 0 is the flash, 2 the EEPROM of the bootloader and 3 that of the data",
    ),
    (
        b"memory flash 00\n",
        "line 1: there is no memory \"flash\"; 0 is the flash, 2 the EEPROM of the bootloader and 3 that of the data",
    ),
    (b"memory 0\n", "line 1: what the memory shows is missing"),
    (
        b"memory 0 123\n",
        "line 1: \"123\" is no contents, which are pairs of hex digits",
    ),
    (
        b"memory 0 0x12\n",
        "line 1: \"0x12\" is no contents, which are pairs of hex digits",
    ),
    (b"memory 0 12 34\n", "line 1: \"34\" is a word too many"),
    (
        b"memory 0 12\nmemory 0x0 12\n",
        "line 2: an earlier line tells the contents of the memory 0",
    ),
    (
        b"memory 3 1234\nmemory 2 1234\nboard boot=1 data=1\n123#\ntick x\n",
        "line 1: the contents are longer than the memory 3",
    ),
    (
        b"\nmemory 0 123456\nboard sectors=1 words=1\n",
        "line 2: the contents are longer than the memory 0",
    ),
    (b"tick 1\n\xff\n", "line 2: the line is not UTF-8"),
    (b"# \xc3(\n", "line 1: the line is not UTF-8"),
];

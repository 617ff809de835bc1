// Keys for the hash of a position, after zobrist.rs of dame-rs (docs/RULES.md, "Keys and hash").
//
// Each kind of piece on each square has a key of 64 bits. The hash of a position is the exclusive or of the keys of its
// pieces, and of the side key where Black is to move. So a move changes the hash by a few keys only.
//
// How the keys are made:
// - SplitMix64, a published generator, starts from 0x64616D65 (the letters "dame").
// - It draws 256 keys: 64 for white men, then for black men, for white kings, for black kings, one for each bit.
//   Those of bits that are no square are drawn and never used.
// - The side key is the first output from the start value with all 64 bits inverted.
// - Sums and products keep their low 64 bits.
// The keys are constants here; the contracts say that they are these outputs. So a hash is the same in every run.
ghost use Rattle.std.specs.Prelude.{◌≡◌, ◌*◌, ◌%◌, ◌^◌};
ghost use Rattle.squares.specs.Keys.{splitmix64_of, block, set_key_of, piece_key_of, side_key};

use crate::bitboard::{ALL, Bitboard, Members};
use crate::piece::{Color, PieceKind};
use crate::square;
use crate::square::Square;

// One draw of SplitMix64: the state for the next draw, and the output.
#[derive(Clone, Copy)]
pub struct Drawn {
    pub state: u64,
    pub output: u64,
}

// The low 64 bits of a product: the library's, under the public name that it had.
pub fn wrapping_mul(a: u64, b: u64) -> u64
    ensures { result ≡ a * b % 2 ^ 64 }
{
    a.wrapping_mul(b)
}

// Draws once from a state.
#[tactic(auto, unfolding(crate::specs::Keys::splitmix64_of, crate::specs::Keys::advance, crate::specs::Keys::scramble, crate::specs::Keys::output))]
pub fn splitmix64(state: u64) -> Drawn
    ensures { result ≡ splitmix64_of state }
{
    let next = state.wrapping_add(0x9E37_79B9_7F4A_7C15);
    let y = wrapping_mul(next ^ (next >> 30), 0xBF58_476D_1CE4_E5B9);
    let z = wrapping_mul(y ^ (y >> 27), 0x94D0_49BB_1331_11EB);
    Drawn {
        state: next,
        output: z ^ (z >> 31),
    }
}

// The first 256 outputs: 64 keys each, by bit, for white men, black men, white kings and black kings. One flat table:
// the outputs come in one row, and one law names them. Of four tables, as in the Rust, it would be four laws.
static PIECE_KEYS: [u64; 256] = [
    0x687B_1986_4A3F_7771,
    0x1E98_557B_34C6_91B9,
    0x3A1A_7B1C_E297_A55D,
    0xC8AB_BDB4_CEFA_F7F7,
    0xBFE9_67B1_8BF2_8D58,
    0x383E_6113_1927_E0B1,
    0xB94C_B4AD_17E0_D3D7,
    0x34C5_F6D3_042D_923C,
    0xC790_B92C_3F25_2825,
    0xD4EF_63D3_583B_4C11,
    0xBE57_496C_6B9C_2380,
    0x4A14_1842_AF09_5060,
    0x884E_7FA8_35BC_C80F,
    0x5D59_649D_76CA_6E29,
    0xB1C1_DE8C_649C_C61B,
    0x2B4F_4BCD_B0D0_0324,
    0x544E_E999_2EA8_59A6,
    0xBE2F_435E_3D67_3FDF,
    0x8EEE_AFCA_A0C1_96C6,
    0xDADE_5B67_D02A_DD1A,
    0x2DA3_0A4D_F4C8_AE39,
    0x6012_7CE0_7AAF_2FA8,
    0x9BB6_358B_B6D0_35C1,
    0x08E9_F367_73DD_9159,
    0x0EDF_DA53_6BD6_84D0,
    0x415F_49B7_9A35_4F4E,
    0x007F_CC90_C835_B865,
    0xD1D5_F3AA_4C76_5508,
    0x47D3_0DDC_6D5A_9DAF,
    0x75DE_FE5E_EBEA_84C2,
    0x5496_59D0_7038_F7E2,
    0xF043_898D_218D_C581,
    0xF9A3_9463_3FB0_E56C,
    0xDA46_ADD7_13AE_004B,
    0x68A7_819E_9605_32F3,
    0xBD51_0692_B333_21DF,
    0x04E9_C22D_BB36_0C6B,
    0x8A95_71C3_2348_1EDA,
    0xF261_D2AA_CF25_A122,
    0x007B_FF04_6C39_AF75,
    0x30ED_80B4_5BF2_1297,
    0x8B16_5CB4_D184_0D62,
    0x4FC7_192D_4DF8_B03F,
    0x3C91_772D_8F09_FB38,
    0x80C1_6D2A_49B3_A300,
    0xB841_4A99_BEA1_75C0,
    0x744E_FB64_7CAA_06AF,
    0xFAE4_3972_4453_6F14,
    0xD450_67DD_40B7_A229,
    0x2D15_255A_0C49_FE41,
    0x7954_1EEB_9039_1F07,
    0x6B52_EA8B_3B2B_623C,
    0xF11B_5508_89E9_88E8,
    0x4BE8_B944_424A_44FC,
    0xA008_A299_99BC_85BE,
    0x00BA_3986_CBE4_ABD1,
    0x81F8_2BFA_3D7C_95BB,
    0xDE90_C0B9_AC7A_A892,
    0x175D_E64D_E93E_47B2,
    0xDEC5_1C95_0CC5_2439,
    0xEA4F_3E4F_1B12_4D8B,
    0xAE4D_0934_601D_6883,
    0xFBEC_47EB_3C16_43A6,
    0xD487_17DD_A27A_327F,
    0x902F_FC5A_6D25_41DD,
    0x8AD0_F8D1_4EBA_2269,
    0x7FE4_50A0_766B_3471,
    0xC31A_1AEB_839D_2985,
    0x8FE2_7D1C_6FB4_06DE,
    0xE5A4_C581_E4D8_5974,
    0x3F05_5E7D_98B6_7B37,
    0x28F1_8A1B_BE8C_E1E1,
    0xB567_3C7E_2CB4_BD7E,
    0x0197_C7C5_CB3B_4F21,
    0x4DCA_D132_3AE6_BA40,
    0x9677_44AC_4C38_F9A9,
    0x7827_18ED_041B_5439,
    0x4122_0EB1_0912_1E96,
    0x41CE_C310_DADF_7E75,
    0x7B7E_C32F_FD86_6694,
    0x4B13_BBE0_9846_B4A9,
    0x301D_262A_72AC_DF63,
    0x569A_EA7F_9CC1_862F,
    0x91E9_CF44_04CD_3CF4,
    0x5B19_80CA_1A54_4D9D,
    0x91BE_78A0_ED0A_0EDA,
    0x627A_1025_FCDF_2F36,
    0xBAB9_A0FA_EB2B_98FF,
    0x9D0A_0702_E39C_96F5,
    0x225E_1B03_B131_8C20,
    0x6BEA_982E_F041_24FC,
    0x2A38_2B03_0215_9C0C,
    0x9CD5_DC57_43A5_3C2E,
    0xC01D_5A76_90F4_EDFD,
    0x3F26_2245_E184_16D1,
    0x0D42_C5DB_E674_4FC0,
    0x216A_35FB_1F77_6C1E,
    0xAD48_B7D9_6B15_51A7,
    0x3106_C7CC_2F1F_D863,
    0x0D7D_CE0B_82A8_CAC0,
    0xF3EE_F5F9_E793_9D7A,
    0x6350_00F8_ACAB_320A,
    0xA84E_DB41_2D64_F833,
    0x8D96_D6AA_9C09_951F,
    0x198F_5960_55E6_515C,
    0x48F5_CDA9_F27E_D579,
    0x32E2_9603_4FAF_C59D,
    0x6766_10E4_3C82_370F,
    0x77D5_3371_85C5_8654,
    0x82C1_CE24_01BB_8008,
    0xDD94_293F_7A6E_D611,
    0xC346_1336_1B17_4BE9,
    0x4105_364C_D893_0902,
    0xB1BF_BB39_F1F8_9E3E,
    0x815F_A7C6_F0C6_5A57,
    0x5798_5685_1045_7A6D,
    0x35EA_041D_16EA_F2DF,
    0xADE5_37AC_ECAC_6B5B,
    0xC429_8205_C50A_B469,
    0xA3A3_9BB6_61C1_C12C,
    0x13C1_72CC_3F52_2120,
    0xDEDD_ED1F_5AC6_1C43,
    0x27FA_7331_F4BD_7F4F,
    0xC990_00C6_3A32_F10C,
    0x9082_C894_BFA8_0950,
    0xEAC7_4321_5D7D_D306,
    0xBEE6_F47E_DAFA_C395,
    0x5178_CF10_3EDA_6E16,
    0x5715_1531_DBF6_CEFA,
    0xAD56_9CB7_449D_5C96,
    0xB0E7_46DC_7351_9F23,
    0x2D96_CC4D_0C1B_BF47,
    0x4755_A020_C383_84AF,
    0xAEBE_BF3F_B796_F717,
    0x278A_EB0B_99BF_71BD,
    0xE635_AAFB_874B_C79A,
    0x8342_C5AB_1529_DBA3,
    0x6371_E39E_CEB5_F43F,
    0xF07E_8E46_3CF5_D1CC,
    0xEE2C_AB0A_60B9_6E6F,
    0xBABC_4DF0_AE83_F8E7,
    0xB272_4BF6_3930_6343,
    0x88FA_F98E_C09F_CF06,
    0x0FF7_39EF_E3C0_D435,
    0x08F3_312C_6C9B_D201,
    0x801E_4248_71C5_AC95,
    0xB5BC_EE9B_E21D_EEA2,
    0x1267_4F76_2543_98F7,
    0x2A0E_EA17_1867_7953,
    0xEE90_CC87_C8DA_CDA3,
    0x08EF_7C3C_E243_FD13,
    0x6E96_1C5D_775B_0BCA,
    0x2B56_29B7_4F4D_B3D1,
    0xBF3D_0BDF_D954_1F9B,
    0x2A6A_A672_2C87_9605,
    0xC7C1_B76B_DB70_3005,
    0xE23A_8732_0B3E_42AE,
    0xCA17_2FF9_555F_C1D1,
    0xF45D_77C4_FE84_C4CF,
    0xF7AC_B130_7F36_4B0F,
    0x2E66_7039_6960_2E39,
    0x7EC7_15D6_5DF5_41E0,
    0x7A37_E246_65B5_616A,
    0x2D92_AF41_884E_574D,
    0x2573_8BBC_D2B5_717A,
    0xF764_37A6_A738_C99B,
    0xF80B_DFED_C592_0F3E,
    0x0100_8F86_51DF_5BCB,
    0xD1A8_96D4_4980_E1C3,
    0x0198_AD67_9C5A_C64F,
    0xDB27_837D_44AF_B000,
    0xFA41_9BFC_58D3_C776,
    0xBCAB_B16D_3F78_FF07,
    0x2F7F_149A_34F3_C7EC,
    0x9AE5_CD0E_4584_0DA2,
    0x9B54_E240_3C9B_BDEA,
    0xB71D_DBB1_A1D6_9803,
    0x4611_544E_71B7_87DE,
    0x1B34_7197_7C7C_CA42,
    0x8753_1774_37D0_59FB,
    0xA7B9_1DBB_29DF_29B6,
    0xBB3A_D700_0515_31BF,
    0xC7B9_BC8A_6107_DF48,
    0xB3C2_4873_0EC4_178C,
    0x5BBA_58D4_C585_F598,
    0xDF9B_D878_8DE2_94DB,
    0x97FF_045C_5F98_8AC1,
    0xD9C1_C69A_82F7_3365,
    0xE6BC_EA64_ED29_C51B,
    0xB255_AFAE_12E8_119C,
    0x3105_70F2_B51B_6BBD,
    0x1F78_FC3B_EE2A_6958,
    0x54E1_1E15_83B4_C67D,
    0x3319_7884_E72A_5E68,
    0xA358_09B3_E0DB_B7E8,
    0x6E35_FFBE_6506_3A1B,
    0xF085_7448_0291_4B7A,
    0x2D78_3172_32A6_97E2,
    0xA49A_CB80_A683_CFDA,
    0xAC6A_7EAC_7DED_7D05,
    0xDDE1_53AD_A45E_F8DC,
    0x03AD_0037_7124_2DCF,
    0x6830_E205_9AD8_27AC,
    0xEDE0_2BF9_B5A6_CB4D,
    0xF32D_1CBF_F7E2_2769,
    0x3D22_4071_6B9A_DC3F,
    0x3EF1_CAE3_0A9E_2C81,
    0x6AC0_1A6B_74D8_E117,
    0xC842_62A1_19F9_218F,
    0xF168_0142_339A_6FA5,
    0x9CA7_FBFA_8FC2_EB07,
    0x678D_3C72_30BE_7E00,
    0x04AB_E6F6_0ED9_A80C,
    0x1FB8_03A4_90C5_63E1,
    0x1189_FA0F_4827_2F5C,
    0xB7C0_8B9F_8E88_9C6B,
    0x8B26_258A_BD29_14DD,
    0x3D3C_7BDD_AF39_AA2E,
    0xD98A_5B51_323A_E25E,
    0xA9E0_1F5E_88D9_F40F,
    0x2843_38B0_2D67_DE23,
    0x294B_1C06_1991_E1C9,
    0x5CA5_B1C8_99AE_CDA0,
    0x4CEA_FAA0_6A14_36B9,
    0xE9AE_7319_7326_6E62,
    0xC206_3E59_AD01_6123,
    0x13B5_99E6_D9AE_2513,
    0x3DA0_1F6F_DCB4_3EFA,
    0x4B9D_CF05_D943_57DC,
    0x2D2F_F17A_766A_DC10,
    0x7573_EF36_5207_02ED,
    0xEC87_1ECA_D1E6_2191,
    0x7AF1_34DC_B879_4780,
    0x383D_404A_DA2E_F0AA,
    0x6A65_4311_E151_9E90,
    0xC77A_7896_47EC_B818,
    0xFC51_A1B9_2445_06B9,
    0x2511_AF34_95A8_C9FD,
    0x7146_EA16_47BB_5DA2,
    0x5115_7520_E2C6_4549,
    0x1BFE_0FEB_C30D_8760,
    0xE445_1C01_BA4D_09C0,
    0xFC08_7BC9_E07E_7E2E,
    0xF378_EBD6_755F_7758,
    0x7AE9_FD28_AAD0_0997,
    0x64CD_E11F_29FF_CCD7,
    0xFB04_AEF7_23F0_15F8,
    0x912C_528A_EC5E_ADAE,
    0xC32F_55A1_4166_8F2E,
    0xE0B7_EBE6_AE8C_9968,
    0x980C_2194_88C0_D3DB,
    0x9AB8_944B_F222_FA4B,
    0xF975_0EAA_46E9_2767,
    0xCE54_D261_CA8A_D91F,
    0x0B25_F499_C514_DF85,
    0x8139_0F1E_9A6D_11E2,
];

// Part of the hash while Black is to move: the first output from the start value with all bits inverted.
const SIDE_KEY: u64 = 0x0E3C_8F96_18B7_3E59;

#[tactic(auto, unfolding(crate::specs::Computed::computed))]
pub fn side_key() -> u64
    ensures { result ≡ side_key }
{
    SIDE_KEY
}

// The number of the block of 64 keys for this kind of piece, as in the Rust. Colour and kind are two parameters and no
// `Piece`, as they are in `set_key` and `piece_key`, which are public.
pub(crate) fn index(color: Color, kind: PieceKind) -> usize
    ensures { result ≡ block color kind }
{
    match (color, kind) {
        (Color::White, PieceKind::Man) => 0,
        (Color::Black, PieceKind::Man) => 1,
        (Color::White, PieceKind::King) => 2,
        (Color::Black, PieceKind::King) => 3,
    }
}

// The exclusive or of the keys of such pieces on the squares of the set. Only this function reads PIECE_KEYS.
pub fn set_key(color: Color, kind: PieceKind, set: Bitboard) -> u64
    ensures { result ≡ set_key_of color kind set }
{
    let keys = &PIECE_KEYS;
    let from = 64 * index(color, kind);
    Members(set & ALL).fold(0, |key, bit| key ^ keys[from + bit as usize])
}

// The key of one such piece on a square; 0 where there is no such square.
#[tactic(auto, unfolding(crate::specs::Keys::piece_key_of))]
pub fn piece_key(color: Color, kind: PieceKind, square: Square) -> u64
    ensures { result ≡ piece_key_of color kind square }
{
    set_key(color, kind, square::bitboard(square))
}

//! Rows: the question table, on the examples that this repository has as files.

use crate::status::Status;
use crate::tests::is_row;
use std::test::Fail;

// Two proofs of one proposition are the same, and of two propositions are not.
const IRRELEVANCE: &[u8] =
    b"2.0.0\n1 #NS 0 P\n0 #ES 0\n#AX 1 0\n2 #NS 0 Q\n#AX 2 0\n3 #NS 0 h\n1 #EC 1\n#AX 3 1\n4 #NS 0 k\n#AX 4 1\n5 #NS 0 m\n2 #EC 2\n#AX 5 2\n6 #NS 0 F\n7 #NS 0 a\n3 #EP #BD 7 1 0\n#AX 6 3\n8 #NS 0 x\n4 #EC 6\n5 #EC 3\n6 #EA 4 5\n#AX 8 6\n7 #EC 8\n9 #NS 0 y\n8 #EC 4\n9 #EA 4 8\n#DEF 9 9 7 O\n10 #NS 0 G\n11 #NS 0 p\n10 #EV 0\n11 #EP #BD 7 10 0\n12 #EP #BD 11 0 11\n#AX 10 12\n12 #NS 0 z\n13 #EC 10\n14 #EA 13 1\n15 #EA 14 5\n#AX 12 15\n16 #EC 12\n13 #NS 0 w\n17 #EA 13 2\n18 #EC 5\n19 #EA 17 18\n#DEF 13 19 16 O\n";

const IRRELEVANCE_TOLD: &[u8] =
    b"yes axiom 0 P\n  axiom P\nyes axiom 1 Q\n  axiom Q\nyes axiom 2 h\n  axiom P\n  axiom h\nyes axiom 3 k\n  axiom P\n  axiom k\nyes axiom 4 m\n  axiom Q\n  axiom m\nyes axiom 5 F\n  axiom P\n  axiom F\nyes axiom 6 x\n  axiom P\n  axiom h\n  axiom F\n  axiom x\nyes def 7 y\n  axiom P\n  axiom h\n  axiom k\n  axiom F\n  axiom x\nyes axiom 8 G\n  axiom G\nyes axiom 9 z\n  axiom P\n  axiom h\n  axiom G\n  axiom z\nno def 10 w\n  why ValueType\n  axiom P\n  axiom Q\n  axiom h\n  axiom m\n  axiom G\n  axiom z\nunits 11 yes 10 no 1 memory 0\n";

// Function eta, where the type of the other one is a Pi.
const ETA: &[u8] =
    b"2.0.0\n1 #NS 0 A\n1 #US 0\n0 #ES 1\n#AX 1 0\n2 #NS 0 B\n#AX 2 0\n3 #NS 0 b\n1 #EC 2\n#AX 3 1\n4 #NS 0 f\n5 #NS 0 a\n2 #EC 1\n3 #EP #BD 5 2 1\n#AX 4 3\n6 #NS 0 F\n7 #NS 0 g\n4 #EP #BD 7 3 0\n#AX 6 4\n8 #NS 0 x\n5 #EC 6\n6 #EC 4\n7 #EA 5 6\n#AX 8 7\n8 #EC 8\n9 #NS 0 y\n9 #EV 0\n10 #EA 6 9\n11 #EL #BD 5 2 10\n12 #EA 5 11\n#DEF 9 12 8 O\n10 #NS 0 z\n13 #EC 3\n14 #EL #BD 5 2 13\n15 #EA 5 14\n#DEF 10 15 8 O\n";

const ETA_TOLD: &[u8] =
    b"yes axiom 0 A\n  axiom A\nyes axiom 1 B\n  axiom B\nyes axiom 2 b\n  axiom B\n  axiom b\nyes axiom 3 f\n  axiom A\n  axiom B\n  axiom f\nyes axiom 4 F\n  axiom A\n  axiom B\n  axiom F\nyes axiom 5 x\n  axiom A\n  axiom B\n  axiom f\n  axiom F\n  axiom x\nyes def 6 y\n  axiom A\n  axiom B\n  axiom f\n  axiom F\n  axiom x\nno def 7 z\n  why ValueType\n  axiom A\n  axiom B\n  axiom b\n  axiom f\n  axiom F\n  axiom x\nunits 8 yes 7 no 1 memory 0\n";

// Structure eta for a structure, for one that is recursive and for one without fields; the recursor of a structure;
// projections, dependent ones and some that are refused.
const STRUCTURES: &[u8] =
    b"2.0.0\n1 #NS 0 N\n1 #US 0\n0 #ES 1\n#AX 1 0\n2 #NS 0 n\n1 #EC 1\n#AX 2 1\n3 #NS 0 Eq\n4 #NS 3 refl\n5 #NS 0 \xce\xb1\n6 #NS 0 u\n2 #UP 6\n2 #ES 2\n7 #NS 0 a\n3 #EV 0\n4 #EV 1\n5 #ES 0\n6 #EP #BD 7 4 5\n7 #EP #BD 7 3 6\n8 #EP #BI 5 2 7\n#IND 3 8 0 0 2 1 1 3 1 4 6\n9 #EC 3 2\n10 #EA 9 4\n11 #EA 10 3\n12 #EA 11 3\n13 #EP #BD 7 3 12\n14 #EP #BI 5 2 13\n#CTOR 4 14 3 0 2 0 6\n8 #NS 0 S\n9 #NS 8 mk\n#IND 8 0 0 0 0 0 1 8 1 9\n10 #NS 0 data\n15 #EC 8\n16 #EP #BD 10 1 15\n#CTOR 9 16 8 0 0 1\n11 #NS 0 motive\n12 #NS 0 t\n17 #EP #BD 12 15 2\n13 #NS 0 mk\n18 #EC 9\n19 #EA 18 3\n20 #EA 4 19\n21 #EP #BD 10 1 20\n22 #EA 4 3\n23 #EL #BD 10 1 22\n24 #EL #BD 13 21 23\n25 #EL #BI 11 17 24\n0 #RR 9 1 25\n14 #NS 8 rec\n26 #EV 2\n27 #EA 26 3\n28 #EP #BD 12 15 27\n29 #EP #BD 13 21 28\n30 #EP #BI 11 17 29\n#REC 14 30 1 8 0 0 1 1 1 0 0 6\n15 #NS 0 s\n#AX 15 15\n31 #EC 4 1\n32 #EA 31 1\n33 #EC 2\n34 #EA 32 33\n16 #NS 0 computed\n35 #EC 3 1\n36 #EA 35 1\n37 #EA 18 33\n38 #EJ 8 0 37\n39 #EA 36 38\n40 #EA 39 33\n#THM 16 40 34\n41 #EA 31 15\n42 #EC 15\n43 #EA 41 42\n17 #NS 0 eta\n44 #EA 35 15\n45 #EJ 8 0 42\n46 #EA 18 45\n47 #EA 44 46\n48 #EA 47 42\n#THM 17 48 43\n49 #EA 32 45\n18 #NS 0 recursor\n50 #EC 14 1\n51 #EL #BD 12 15 1\n52 #EA 50 51\n53 #EL #BD 10 1 3\n54 #EA 52 53\n55 #EA 54 42\n56 #EA 36 55\n57 #EA 56 45\n#THM 18 57 49\n19 #NS 0 R\n20 #NS 19 mk\n#IND 19 0 1 0 0 0 1 19 1 20\n21 #NS 0 inner\n58 #EC 19\n59 #EP #BD 21 58 58\n#CTOR 20 59 19 0 0 1\n22 #NS 0 r\n#AX 22 58\n60 #EA 31 58\n61 #EC 22\n62 #EA 60 61\n23 #NS 0 recursive\n63 #EA 35 58\n64 #EC 20\n65 #EJ 19 0 61\n66 #EA 64 65\n67 #EA 63 66\n68 #EA 67 61\n#THM 23 68 62\n24 #NS 0 U\n25 #NS 24 mk\n#IND 24 0 0 0 0 0 1 24 1 25\n69 #EC 24\n#CTOR 25 69 24 0 0 0\n26 #NS 0 x\n27 #NS 0 y\n70 #EA 31 69\n71 #EA 70 3\n72 #EL #BD 27 69 71\n73 #EL #BD 26 69 72\n28 #NS 0 unit\n74 #EA 35 69\n75 #EA 74 4\n76 #EA 75 3\n77 #EP #BD 27 69 76\n78 #EP #BD 26 69 77\n#THM 28 78 73\n29 #NS 0 Sigma\n30 #NS 29 mk\n3 #US 2\n79 #ES 3\n31 #NS 0 \xce\xb2\n32 #NS 0 v\n4 #UP 32\n5 #US 4\n80 #ES 5\n81 #EP #BD 7 3 80\n6 #UM 2 4\n7 #US 6\n82 #ES 7\n83 #EP #BD 31 81 82\n84 #EP #BD 5 79 83\n#IND 29 84 0 0 2 0 1 29 1 30 6 32\n33 #NS 0 fst\n34 #NS 0 snd\n85 #EC 29 2 4\n86 #EV 3\n87 #EA 85 86\n88 #EA 87 26\n89 #EP #BD 34 22 88\n90 #EP #BD 33 4 89\n91 #EP #BD 31 81 90\n92 #EP #BD 5 79 91\n#CTOR 30 92 29 0 2 2 6 32\n35 #NS 0 self\n93 #EA 85 4\n94 #EA 93 3\n95 #EJ 29 0 3\n96 #EL #BD 35 94 95\n97 #EL #BD 31 81 96\n98 #EL #BD 5 79 97\n36 #NS 29 fst\n99 #EP #BD 35 94 26\n100 #EP #BD 31 81 99\n101 #EP #BD 5 79 100\n#DEF 36 101 98 A 6 32\n102 #EJ 29 1 3\n103 #EL #BD 35 94 102\n104 #EL #BD 31 81 103\n105 #EL #BD 5 79 104\n37 #NS 29 snd\n106 #EC 36 2 4\n107 #EA 106 26\n108 #EA 107 4\n109 #EA 108 3\n110 #EA 4 109\n111 #EP #BD 35 94 110\n112 #EP #BD 31 81 111\n113 #EP #BD 5 79 112\n#DEF 37 113 105 A 6 32\n114 #EJ 8 1 42\n38 #NS 0 no_such_field\n#DEF 38 1 114 O\n115 #EJ 8 0 33\n39 #NS 0 no_structure\n#DEF 39 1 115 O\n40 #NS 0 P\n116 #EP #BD 7 1 5\n#AX 40 116\n41 #NS 0 Ex\n42 #NS 41 mk\n#IND 41 5 0 0 0 0 1 41 1 42\n43 #NS 0 w\n44 #NS 0 h\n117 #EC 40\n118 #EA 117 3\n119 #EC 41\n120 #EP #BD 44 118 119\n121 #EP #BD 43 1 120\n#CTOR 42 121 41 0 0 2\n45 #NS 0 e\n122 #EJ 41 0 3\n123 #EL #BD 45 119 122\n46 #NS 0 witness\n124 #EP #BD 7 119 1\n#DEF 46 124 123 O\n47 #NS 0 Both\n48 #NS 47 mk\n49 #NS 0 p\n50 #NS 0 q\n125 #EP #BD 50 5 5\n126 #EP #BD 49 5 125\n#IND 47 126 0 0 2 0 1 47 1 48\n51 #NS 0 left\n52 #NS 0 right\n127 #EC 47\n128 #EA 127 86\n129 #EA 128 26\n130 #EP #BD 52 4 129\n131 #EP #BD 51 4 130\n132 #EP #BD 50 5 131\n133 #EP #BD 49 5 132\n#CTOR 48 133 47 0 2 2\n134 #EA 127 4\n135 #EA 134 3\n136 #EJ 47 1 3\n137 #EL #BD 44 135 136\n138 #EL #BD 50 5 137\n139 #EL #BD 49 5 138\n140 #EP #BD 44 135 4\n141 #EP #BD 50 5 140\n142 #EP #BD 49 5 141\n#THM 52 142 139\n";

const STRUCTURES_TOLD: &[u8] =
    b"yes axiom 0 N\n  axiom N\nyes axiom 1 n\n  axiom N\n  axiom n\nyes block 2 Eq\nyes block 3 S\n  axiom N\nyes axiom 4 s\n  axiom N\n  axiom s\nyes thm 5 computed\n  axiom N\n  axiom n\nyes thm 6 eta\n  axiom N\n  axiom s\nyes thm 7 recursor\n  axiom N\n  axiom s\nyes block 8 R\nyes axiom 9 r\n  axiom r\nno thm 10 recursive\n  why ValueType\n  axiom r\nyes block 11 U\nyes thm 12 unit\nyes block 13 Sigma\nyes def 14 Sigma.fst\nyes def 15 Sigma.snd\nno def 16 no_such_field\n  why BadProjection\n  axiom N\n  axiom s\nno def 17 no_structure\n  why BadProjection\n  axiom N\n  axiom n\nyes axiom 18 P\n  axiom N\n  axiom P\nyes block 19 Ex\n  axiom N\n  axiom P\nno def 20 witness\n  why PropProjection\n  axiom N\n  axiom P\nyes block 21 Both\nyes thm 22 right\nunits 23 yes 19 no 4 memory 0\n";

// Literals beside constructors, operations, wide literals and texts.
const LITERALS: &[u8] =
    b"2.0.0\n0 #ELN 5\n1 #NS 0 before_nat\n1 #ES 0\n#DEF 1 1 0 O\n2 #NS 0 Nat\n3 #NS 2 zero\n4 #NS 2 succ\n1 #US 0\n2 #ES 1\n#IND 2 2 1 0 0 0 1 2 2 3 4\n3 #EC 2\n#CTOR 3 3 2 0 0 0\n5 #NS 0 n\n4 #EP #BD 5 3 3\n#CTOR 4 4 2 1 0 1\n6 #NS 0 motive\n7 #NS 0 t\n8 #NS 0 u\n2 #UP 8\n5 #ES 2\n6 #EP #BD 7 3 5\n9 #NS 0 zero\n7 #EV 0\n8 #EC 3\n9 #EA 7 8\n10 #NS 0 succ\n11 #NS 0 n_ih\n10 #EV 2\n11 #EA 10 7\n12 #EV 3\n13 #EC 4\n14 #EV 1\n15 #EA 13 14\n16 #EA 12 15\n17 #EP #BD 11 11 16\n18 #EP #BD 5 3 17\n19 #EL #BD 10 18 14\n20 #EL #BD 9 9 19\n21 #EL #BI 6 6 20\n0 #RR 3 0 21\n22 #EA 14 7\n12 #NS 2 rec\n23 #EC 12 2\n24 #EA 23 12\n25 #EA 24 10\n26 #EA 25 14\n27 #EA 26 7\n28 #EA 22 27\n29 #EL #BD 5 3 28\n30 #EL #BD 10 18 29\n31 #EL #BD 9 9 30\n32 #EL #BI 6 6 31\n1 #RR 4 1 32\n33 #EA 12 7\n34 #EP #BD 7 3 33\n35 #EP #BD 10 18 34\n36 #EP #BD 9 9 35\n37 #EP #BI 6 6 36\n#REC 12 37 1 2 0 0 1 2 2 0 1 0 8\n13 #NS 0 Eq\n14 #NS 13 refl\n15 #NS 0 \xce\xb1\n16 #NS 0 a\n38 #EP #BD 16 14 1\n39 #EP #BD 16 7 38\n40 #EP #BI 15 5 39\n#IND 13 40 0 0 2 1 1 13 1 14 8\n41 #EC 13 2\n42 #EA 41 14\n43 #EA 42 7\n44 #EA 43 7\n45 #EP #BD 16 7 44\n46 #EP #BI 15 5 45\n#CTOR 14 46 13 0 2 0 8\n17 #NS 0 five\n#DEF 17 3 0 R 0\n47 #EC 14 1\n48 #EA 47 3\n49 #EA 48 8\n50 #EC 13 1\n51 #EA 50 3\n52 #ELN 0\n53 #EA 51 52\n54 #EA 53 8\n#THM 9 54 49\n55 #EA 13 8\n56 #EA 13 55\n57 #EA 48 56\n18 #NS 0 two\n58 #ELN 2\n59 #EA 51 58\n60 #EA 59 56\n#THM 18 60 57\n19 #NS 0 three_is_two\n61 #ELN 3\n62 #EA 51 61\n63 #EA 62 56\n#THM 19 63 57\n64 #EC 12 1\n65 #EL #BD 7 3 3\n66 #EA 64 65\n67 #EA 66 7\n20 #NS 0 before\n21 #NS 0 result\n68 #EL #BD 21 3 14\n69 #EL #BD 20 3 68\n70 #EA 67 69\n71 #EA 70 7\n72 #EL #BD 5 3 71\n22 #NS 0 pred\n#DEF 22 4 72 R 1\n73 #EA 48 0\n23 #NS 0 pred_six\n74 #EC 22\n75 #ELN 6\n76 #EA 74 75\n77 #EA 51 76\n78 #EA 77 0\n#THM 23 78 73\n24 #NS 0 m\n79 #EA 66 14\n80 #EA 13 7\n81 #EL #BD 21 3 80\n82 #EL #BD 20 3 81\n83 #EA 79 82\n84 #EA 83 7\n85 #EL #BD 24 3 84\n86 #EL #BD 5 3 85\n25 #NS 2 add\n87 #EP #BD 16 3 4\n#DEF 25 87 86 R 1\n88 #ELN 2000000000000000000000000000000\n89 #EA 48 88\n26 #NS 0 sum\n90 #EC 25\n91 #ELN 1000000000000000000000000000000\n92 #EA 90 91\n93 #EA 92 91\n94 #EA 51 93\n95 #EA 94 88\n#THM 26 95 89\n96 #EA 48 91\n27 #NS 0 wrong_sum\n97 #EA 94 91\n#THM 27 97 96\n98 #ELN 340282366920938463463374607431768211455\n99 #EA 13 98\n100 #EA 48 99\n28 #NS 0 unfolded_sum\n101 #EA 90 98\n102 #ELN 1\n103 #EA 101 102\n104 #EA 51 103\n105 #EA 104 99\n#THM 28 105 100\n29 #NS 0 widest\n#DEF 29 3 98 R 0\n106 #ELN 340282366920938463463374607431768211456\n30 #NS 0 wide\n#DEF 30 3 106 R 0\n31 #NS 0 holds_wide\n107 #EC 30\n108 #EA 51 107\n109 #EA 108 8\n#AX 31 109\n32 #NS 0 of_a_number\n#AX 32 0\n110 #ELS 68 C3 A9\n33 #NS 0 before_string\n#DEF 33 3 110 O\n34 #NS 0 List\n35 #NS 34 nil\n36 #NS 34 cons\n3 #US 2\n111 #ES 3\n112 #EP #BD 15 111 111\n#IND 34 112 1 0 1 0 1 34 2 35 36 8\n113 #EC 34 2\n114 #EA 113 7\n115 #EP #BD 15 111 114\n#CTOR 35 115 34 0 1 0 8\n37 #NS 0 head\n38 #NS 0 tail\n116 #EA 113 14\n117 #EA 113 10\n118 #EP #BD 38 116 117\n119 #EP #BD 37 7 118\n120 #EP #BD 15 111 119\n#CTOR 36 120 34 1 1 2 8\n39 #NS 0 Char\n#AX 39 2\n40 #NS 39 ofNat\n121 #EC 39\n122 #EP #BD 16 3 121\n#AX 40 122\n41 #NS 0 String\n42 #NS 41 mk\n#IND 41 2 0 0 0 0 1 41 1 42\n43 #NS 0 data\n123 #EC 34 0\n124 #EA 123 121\n125 #EC 41\n126 #EP #BD 43 124 125\n#CTOR 42 126 41 0 0 1\n44 #NS 0 text\n#DEF 44 125 110 R 0\n45 #NS 0 not_a_number\n#DEF 45 3 110 R 0\n127 #EA 47 125\n128 #EC 42\n129 #EC 36 0\n130 #EA 129 121\n131 #EC 40\n132 #ELN 104\n133 #EA 131 132\n134 #EA 130 133\n135 #ELN 233\n136 #EA 131 135\n137 #EA 130 136\n138 #EC 35 0\n139 #EA 138 121\n140 #EA 137 139\n141 #EA 134 140\n142 #EA 128 141\n143 #EA 127 142\n46 #NS 0 by_characters\n144 #EA 50 125\n145 #EA 144 110\n146 #EA 145 142\n#THM 46 146 143\n147 #ELN 195\n148 #EA 131 147\n149 #EA 130 148\n150 #ELN 169\n151 #EA 131 150\n152 #EA 130 151\n153 #EA 152 139\n154 #EA 149 153\n155 #EA 134 154\n156 #EA 128 155\n157 #EA 127 156\n47 #NS 0 by_bytes\n158 #EA 145 156\n#THM 47 158 157\n";

const LITERALS_TOLD: &[u8] =
    b"no def 0 before_nat\n  why NoBuiltin\nyes block 1 Nat\nyes block 2 Eq\nyes def 3 five\nyes thm 4 zero\nyes thm 5 two\nno thm 6 three_is_two\n  why ValueType\nyes def 7 pred\nyes thm 8 pred_six\nyes def 9 Nat.add\nyes thm 10 sum\nno thm 11 wrong_sum\n  why ValueType\nyes thm 12 unfolded_sum\nyes def 13 widest\nno def 14 wide\n  why WideLiteral\nno axiom 15 holds_wide\n  why WideLiteral\n  axiom holds_wide\nno axiom 16 of_a_number\n  why NotASort\n  axiom of_a_number\nno def 17 before_string\n  why NoBuiltin\nyes block 18 List\nyes axiom 19 Char\n  axiom Char\nyes axiom 20 Char.ofNat\n  axiom Char\n  axiom Char.ofNat\nyes block 21 String\n  axiom Char\nyes def 22 text\n  axiom Char\nno def 23 not_a_number\n  why ValueType\nyes thm 24 by_characters\n  axiom Char\n  axiom Char.ofNat\nno thm 25 by_bytes\n  why ValueType\n  axiom Char\n  axiom Char.ofNat\nunits 26 yes 17 no 9 memory 0\n";

// A text without `String`.
const NO_BUILTIN: &[u8] = b"1 #NS 0 s\n0 #ES 0\n1 #ELS 68 C3 A9\n#DEF 1 0 1 O\n";

const NO_BUILTIN_TOLD: &[u8] = b"no def 0 s\n  why NoBuiltin\nunits 1 yes 0 no 1 memory 0\n";

// `Nat` in another shape.
const BUILTIN_SHAPE: &[u8] =
    b"2.0.0\n1 #NS 0 Nat\n2 #NS 1 succ\n3 #NS 1 zero\n1 #US 0\n0 #ES 1\n#IND 1 0 1 0 0 0 1 1 2 2 3\n4 #NS 0 n\n1 #EC 1\n2 #EP #BD 4 1 1\n#CTOR 2 2 1 0 0 1\n#CTOR 3 1 1 1 0 0\n3 #EC 2\n4 #EC 3\n5 #EA 3 4\n5 #NS 0 one\n#DEF 5 1 5 R 0\n6 #ELN 5\n6 #NS 0 five\n#DEF 6 1 6 R 0\n";

const BUILTIN_SHAPE_TOLD: &[u8] =
    b"yes block 0 Nat\nyes def 1 one\nno def 2 five\n  why BuiltinShape\nunits 3 yes 2 no 1 memory 0\n";

// The four constants of quotient types, and a theorem by `Quot.lift` of `Quot.mk`.
const QUOTIENTS: &[u8] =
    b"2.0.0\n1 #NS 0 Eq\n2 #NS 1 refl\n3 #NS 0 \xce\xb1\n4 #NS 0 u\n1 #UP 4\n0 #ES 1\n5 #NS 0 a\n1 #EV 0\n2 #EV 1\n3 #ES 0\n4 #EP #BD 5 2 3\n5 #EP #BD 5 1 4\n6 #EP #BI 3 0 5\n#IND 1 6 0 0 2 1 1 1 1 2 4\n7 #EC 1 1\n8 #EA 7 2\n9 #EA 8 1\n10 #EA 9 1\n11 #EP #BD 5 1 10\n12 #EP #BI 3 0 11\n#CTOR 2 12 1 0 2 0 4\n6 #NS 0 Quot\n7 #NS 0 r\n13 #EP #BD 7 5 0\n14 #EP #BD 3 0 13\n#QUOT 6 14 4\n8 #NS 6 mk\n15 #EC 6 1\n16 #EV 2\n17 #EA 15 16\n18 #EA 17 2\n19 #EP #BD 5 2 18\n20 #EP #BD 7 5 19\n21 #EP #BD 3 0 20\n#QUOT 8 21 4\n9 #NS 6 lift\n10 #NS 0 \xce\xb2\n11 #NS 0 v\n2 #UP 11\n22 #ES 2\n12 #NS 0 f\n23 #EP #BD 5 16 2\n13 #NS 0 h\n24 #EV 3\n14 #NS 0 b\n25 #EV 4\n26 #EA 25 2\n27 #EA 26 1\n28 #EC 1 2\n29 #EA 28 25\n30 #EA 24 16\n31 #EA 29 30\n32 #EA 24 2\n33 #EA 31 32\n34 #EP #BD 5 27 33\n35 #EP #BD 14 25 34\n36 #EP #BD 5 24 35\n37 #EA 15 25\n38 #EA 37 24\n39 #EP #BD 5 38 24\n40 #EP #BD 13 36 39\n41 #EP #BD 12 23 40\n42 #EP #BD 10 22 41\n43 #EP #BD 7 5 42\n44 #EP #BD 3 0 43\n#QUOT 9 44 4 11\n15 #NS 6 ind\n45 #EA 15 2\n46 #EA 45 1\n47 #EP #BD 5 46 3\n16 #NS 0 mk\n48 #EC 8 1\n49 #EA 48 24\n50 #EA 49 16\n51 #EA 50 1\n52 #EA 2 51\n53 #EP #BD 5 16 52\n17 #NS 0 q\n54 #EA 15 24\n55 #EA 54 16\n56 #EA 16 1\n57 #EP #BD 17 55 56\n58 #EP #BD 16 53 57\n59 #EP #BD 10 47 58\n60 #EP #BD 7 5 59\n61 #EP #BD 3 0 60\n#QUOT 15 61 4\n18 #NS 0 Quotient\n#QUOT 18 14 4\n62 #EC 2 2\n63 #EA 62 24\n64 #EA 63 56\n65 #EL #BD 5 25 64\n66 #EL #BD 13 36 65\n67 #EL #BD 12 23 66\n68 #EL #BD 10 22 67\n69 #EL #BD 7 5 68\n70 #EL #BD 3 0 69\n19 #NS 0 lift_mk\n71 #EA 28 24\n72 #EC 9 1 2\n73 #EV 5\n74 #EA 72 73\n75 #EA 74 25\n76 #EA 75 24\n77 #EA 76 16\n78 #EA 77 2\n79 #EA 48 73\n80 #EA 79 25\n81 #EA 80 1\n82 #EA 78 81\n83 #EA 71 82\n84 #EA 83 56\n85 #EP #BD 5 25 84\n86 #EP #BD 13 36 85\n87 #EP #BD 12 23 86\n88 #EP #BD 10 22 87\n89 #EP #BD 7 5 88\n90 #EP #BD 3 0 89\n#THM 19 90 70 4 11\n91 #EA 62 25\n92 #EA 24 1\n93 #EA 91 92\n94 #EL #BD 14 73 93\n95 #EL #BD 5 25 94\n96 #EL #BD 13 36 95\n97 #EL #BD 12 23 96\n98 #EL #BD 10 22 97\n99 #EL #BD 7 5 98\n100 #EL #BD 3 0 99\n20 #NS 0 lift_other\n101 #EV 6\n102 #EA 72 101\n103 #EA 102 73\n104 #EA 103 25\n105 #EA 104 24\n106 #EA 105 16\n107 #EA 48 101\n108 #EA 107 73\n109 #EA 108 2\n110 #EA 106 109\n111 #EA 29 110\n112 #EA 111 92\n113 #EP #BD 14 73 112\n114 #EP #BD 5 25 113\n115 #EP #BD 13 36 114\n116 #EP #BD 12 23 115\n117 #EP #BD 10 22 116\n118 #EP #BD 7 5 117\n119 #EP #BD 3 0 118\n#THM 20 119 100 4 11\n21 #NS 6 sound\n120 #EA 16 2\n121 #EA 120 1\n122 #EA 7 38\n123 #EA 48 25\n124 #EA 123 24\n125 #EA 124 16\n126 #EA 122 125\n127 #EA 124 2\n128 #EA 126 127\n129 #EP #BD 13 121 128\n130 #EP #BD 14 16 129\n131 #EP #BD 5 2 130\n132 #EP #BD 7 5 131\n133 #EP #BD 3 0 132\n#AX 21 133 4\n134 #EC 15 1\n135 #EA 134 16\n136 #EA 135 2\n137 #EA 7 55\n138 #EC 9 1 1\n139 #EA 138 24\n140 #EA 139 16\n141 #EA 140 55\n142 #EA 141 50\n143 #EC 21 1\n144 #EA 143 24\n145 #EA 144 16\n146 #EA 142 145\n147 #EA 146 1\n148 #EA 137 147\n149 #EA 148 1\n150 #EL #BD 17 18 149\n151 #EA 136 150\n152 #EC 2 1\n153 #EA 152 55\n154 #EA 153 51\n155 #EL #BD 5 16 154\n156 #EA 151 155\n157 #EA 156 1\n158 #EL #BD 17 46 157\n159 #EL #BD 7 5 158\n160 #EL #BD 3 0 159\n22 #NS 0 lift_is_identity\n161 #EA 7 18\n162 #EA 138 16\n163 #EA 162 2\n164 #EA 163 18\n165 #EA 48 16\n166 #EA 165 2\n167 #EA 164 166\n168 #EA 143 16\n169 #EA 168 2\n170 #EA 167 169\n171 #EA 170 1\n172 #EA 161 171\n173 #EA 172 1\n174 #EP #BD 17 46 173\n175 #EP #BD 7 5 174\n176 #EP #BD 3 0 175\n#THM 22 176 160 4\n";

const QUOTIENTS_TOLD: &[u8] =
    b"yes block 0 Eq\nyes quot 1 Quot\nyes quot 2 Quot.mk\nyes quot 3 Quot.lift\nyes quot 4 Quot.ind\nno quot 5 Quotient\n  why QuotShape\nyes thm 6 lift_mk\nno thm 7 lift_other\n  why ValueType\nyes axiom 8 Quot.sound\n  axiom Quot.sound\nyes thm 9 lift_is_identity\n  axiom Quot.sound\nunits 10 yes 8 no 2 memory 0\n";

// `Quot.lift` before any `Eq`.
const QUOTIENTS_BEFORE_EQUALITY: &[u8] =
    b"2.0.0\n1 #NS 0 Quot\n2 #NS 0 \xce\xb1\n3 #NS 0 u\n1 #UP 3\n0 #ES 1\n4 #NS 0 r\n5 #NS 0 a\n1 #EV 0\n2 #EV 1\n3 #ES 0\n4 #EP #BD 5 2 3\n5 #EP #BD 5 1 4\n6 #EP #BD 4 5 0\n7 #EP #BD 2 0 6\n#QUOT 1 7 3\n6 #NS 1 mk\n8 #EC 1 1\n9 #EV 2\n10 #EA 8 9\n11 #EA 10 2\n12 #EP #BD 5 2 11\n13 #EP #BD 4 5 12\n14 #EP #BD 2 0 13\n#QUOT 6 14 3\n7 #NS 1 lift\n8 #NS 0 \xce\xb2\n9 #NS 0 v\n2 #UP 9\n15 #ES 2\n10 #NS 0 f\n16 #EP #BD 5 9 2\n11 #NS 0 h\n17 #EV 3\n12 #NS 0 b\n18 #EV 4\n19 #EA 18 2\n20 #EA 19 1\n13 #NS 0 Eq\n21 #EC 13 2\n22 #EA 21 18\n23 #EA 17 9\n24 #EA 22 23\n25 #EA 17 2\n26 #EA 24 25\n27 #EP #BD 5 20 26\n28 #EP #BD 12 18 27\n29 #EP #BD 5 17 28\n30 #EA 8 18\n31 #EA 30 17\n32 #EP #BD 5 31 17\n33 #EP #BD 11 29 32\n34 #EP #BD 10 16 33\n35 #EP #BD 8 15 34\n36 #EP #BD 4 5 35\n37 #EP #BD 2 0 36\n#QUOT 7 37 3 9\n14 #NS 13 refl\n38 #EP #BI 2 0 5\n#IND 13 38 0 0 2 1 1 13 1 14 3\n39 #EC 13 1\n40 #EA 39 2\n41 #EA 40 1\n42 #EA 41 1\n43 #EP #BD 5 1 42\n44 #EP #BI 2 0 43\n#CTOR 14 44 13 0 2 0 3\n15 #NS 1 ind\n45 #EA 8 2\n46 #EA 45 1\n47 #EP #BD 5 46 3\n16 #NS 0 mk\n48 #EC 6 1\n49 #EA 48 17\n50 #EA 49 9\n51 #EA 50 1\n52 #EA 2 51\n53 #EP #BD 5 9 52\n17 #NS 0 q\n54 #EA 8 17\n55 #EA 54 9\n56 #EA 9 1\n57 #EP #BD 17 55 56\n58 #EP #BD 16 53 57\n59 #EP #BD 8 47 58\n60 #EP #BD 4 5 59\n61 #EP #BD 2 0 60\n#QUOT 15 61 3\n";

const QUOTIENTS_BEFORE_EQUALITY_TOLD: &[u8] =
    b"yes quot 0 Quot\nyes quot 1 Quot.mk\nno quot 2 Quot.lift\n  why QuotShape\nyes block 3 Eq\nyes quot 4 Quot.ind\nunits 5 yes 4 no 1 memory 0\n";

// `Nat.add` by recursion meets its laws; the laws of `Nat.sub` hold `Nat.pred`, which nothing gives.
const LAWFUL_SUM: &[u8] =
    b"1 #NS 0 Nat\n1 #US 0\n0 #ES 1\n2 #NS 1 zero\n3 #NS 1 succ\n#IND 1 0 0 0 0 0 1 1 2 2 3\n1 #EC 1\n#CTOR 2 1 1 0 0 0\n2 #EP #BD 0 1 1\n#CTOR 3 2 1 1 0 1\n4 #NS 1 rec\n5 #NS 0 u\n2 #UP 5\n3 #ES 2\n4 #EP #BD 0 1 3\n5 #EV 0\n6 #EC 2\n7 #EA 5 6\n8 #EV 2\n9 #EA 8 5\n10 #EV 3\n11 #EC 3\n12 #EV 1\n13 #EA 11 12\n14 #EA 10 13\n15 #EP #BD 0 9 14\n16 #EP #BD 0 1 15\n17 #EA 10 5\n18 #EP #BD 0 1 17\n19 #EP #BD 0 16 18\n20 #EP #BD 0 7 19\n21 #EP #BD 0 4 20\n22 #EL #BD 0 16 12\n23 #EL #BD 0 7 22\n24 #EL #BD 0 4 23\n0 #RR 2 0 24\n25 #EA 12 5\n26 #EC 4 2\n27 #EA 26 10\n28 #EA 27 8\n29 #EA 28 12\n30 #EA 29 5\n31 #EA 25 30\n32 #EL #BD 0 1 31\n33 #EL #BD 0 16 32\n34 #EL #BD 0 7 33\n35 #EL #BD 0 4 34\n1 #RR 3 1 35\n#REC 4 21 1 1 0 0 1 2 2 0 1 0 5\n36 #EC 4 1\n37 #EL #BD 0 1 1\n38 #EA 36 37\n39 #EA 38 12\n40 #EA 11 5\n41 #EL #BD 0 1 40\n42 #EL #BD 0 1 41\n43 #EA 39 42\n44 #EA 43 5\n45 #EL #BD 0 1 44\n46 #EL #BD 0 1 45\n6 #NS 1 add\n47 #EP #BD 0 1 2\n#DEF 6 47 46 R 1\n48 #EL #BD 0 1 12\n49 #EL #BD 0 1 48\n7 #NS 1 sub\n#DEF 7 47 49 R 1\n";

const LAWFUL_SUM_TOLD: &[u8] =
    b"yes block 0 Nat\nyes def 1 Nat.add\nno def 2 Nat.sub\n  why NoBuiltin\nunits 3 yes 2 no 1 memory 0\n";

// `Nat.add` that gives its first number.
const FAKED_SUM: &[u8] =
    b"1 #NS 0 Nat\n1 #US 0\n0 #ES 1\n2 #NS 1 zero\n3 #NS 1 succ\n#IND 1 0 0 0 0 0 1 1 2 2 3\n1 #EC 1\n#CTOR 2 1 1 0 0 0\n2 #EP #BD 0 1 1\n#CTOR 3 2 1 1 0 1\n4 #NS 1 rec\n5 #NS 0 u\n2 #UP 5\n3 #ES 2\n4 #EP #BD 0 1 3\n5 #EV 0\n6 #EC 2\n7 #EA 5 6\n8 #EV 2\n9 #EA 8 5\n10 #EV 3\n11 #EC 3\n12 #EV 1\n13 #EA 11 12\n14 #EA 10 13\n15 #EP #BD 0 9 14\n16 #EP #BD 0 1 15\n17 #EA 10 5\n18 #EP #BD 0 1 17\n19 #EP #BD 0 16 18\n20 #EP #BD 0 7 19\n21 #EP #BD 0 4 20\n22 #EL #BD 0 16 12\n23 #EL #BD 0 7 22\n24 #EL #BD 0 4 23\n0 #RR 2 0 24\n25 #EA 12 5\n26 #EC 4 2\n27 #EA 26 10\n28 #EA 27 8\n29 #EA 28 12\n30 #EA 29 5\n31 #EA 25 30\n32 #EL #BD 0 1 31\n33 #EL #BD 0 16 32\n34 #EL #BD 0 7 33\n35 #EL #BD 0 4 34\n1 #RR 3 1 35\n#REC 4 21 1 1 0 0 1 2 2 0 1 0 5\n36 #EL #BD 0 1 12\n37 #EL #BD 0 1 36\n6 #NS 1 add\n38 #EP #BD 0 1 2\n#DEF 6 38 37 R 1\n";

const FAKED_SUM_TOLD: &[u8] =
    b"yes block 0 Nat\nno def 1 Nat.add\n  why NatLaw\nunits 2 yes 1 no 1 memory 0\n";

// `Nat.pow` by recursion over `Nat.mul`, which is an axiom.
const POWER_OVER_AXIOM: &[u8] =
    b"1 #NS 0 Nat\n1 #US 0\n0 #ES 1\n2 #NS 1 zero\n3 #NS 1 succ\n#IND 1 0 0 0 0 0 1 1 2 2 3\n1 #EC 1\n#CTOR 2 1 1 0 0 0\n2 #EP #BD 0 1 1\n#CTOR 3 2 1 1 0 1\n4 #NS 1 rec\n5 #NS 0 u\n2 #UP 5\n3 #ES 2\n4 #EP #BD 0 1 3\n5 #EV 0\n6 #EC 2\n7 #EA 5 6\n8 #EV 2\n9 #EA 8 5\n10 #EV 3\n11 #EC 3\n12 #EV 1\n13 #EA 11 12\n14 #EA 10 13\n15 #EP #BD 0 9 14\n16 #EP #BD 0 1 15\n17 #EA 10 5\n18 #EP #BD 0 1 17\n19 #EP #BD 0 16 18\n20 #EP #BD 0 7 19\n21 #EP #BD 0 4 20\n22 #EL #BD 0 16 12\n23 #EL #BD 0 7 22\n24 #EL #BD 0 4 23\n0 #RR 2 0 24\n25 #EA 12 5\n26 #EC 4 2\n27 #EA 26 10\n28 #EA 27 8\n29 #EA 28 12\n30 #EA 29 5\n31 #EA 25 30\n32 #EL #BD 0 1 31\n33 #EL #BD 0 16 32\n34 #EL #BD 0 7 33\n35 #EL #BD 0 4 34\n1 #RR 3 1 35\n#REC 4 21 1 1 0 0 1 2 2 0 1 0 5\n6 #NS 1 mul\n36 #EP #BD 0 1 2\n#AX 6 36\n37 #EC 4 1\n38 #EL #BD 0 1 1\n39 #EA 37 38\n40 #EA 11 6\n41 #EA 39 40\n42 #EC 6\n43 #EA 42 5\n44 #EA 43 10\n45 #EL #BD 0 1 44\n46 #EL #BD 0 1 45\n47 #EA 41 46\n48 #EA 47 5\n49 #EL #BD 0 1 48\n50 #EL #BD 0 1 49\n7 #NS 1 pow\n#DEF 7 36 50 R 1\n";

const POWER_OVER_AXIOM_TOLD: &[u8] =
    b"yes block 0 Nat\nyes axiom 1 Nat.mul\n  axiom Nat.mul\nno def 2 Nat.pow\n  why NatLaw\n  axiom Nat.mul\nunits 3 yes 2 no 1 memory 0\n";

// `Nat.add` before any `Nat`.
const SUM_BEFORE_NUMBERS: &[u8] =
    b"1 #NS 0 a\n0 #ES 0\n#AX 1 0\n1 #EC 1\n2 #NS 0 Nat\n3 #NS 2 add\n#DEF 3 0 1 R 1\n";

const SUM_BEFORE_NUMBERS_TOLD: &[u8] =
    b"yes axiom 0 a\n  axiom a\nno def 1 Nat.add\n  why NoBuiltin\n  axiom a\nunits 2 yes 1 no 1 memory 0\n";

#[test]
fn rows_of_the_table(rt: HostRuntime) -> Result<(), Fail> {
    let alloc = rt.alloc();
    let rows: [(&[u8], &[u8]); 12] = [
        (IRRELEVANCE, IRRELEVANCE_TOLD),
        (ETA, ETA_TOLD),
        (STRUCTURES, STRUCTURES_TOLD),
        (LITERALS, LITERALS_TOLD),
        (NO_BUILTIN, NO_BUILTIN_TOLD),
        (BUILTIN_SHAPE, BUILTIN_SHAPE_TOLD),
        (QUOTIENTS, QUOTIENTS_TOLD),
        (QUOTIENTS_BEFORE_EQUALITY, QUOTIENTS_BEFORE_EQUALITY_TOLD),
        (LAWFUL_SUM, LAWFUL_SUM_TOLD),
        (FAKED_SUM, FAKED_SUM_TOLD),
        (POWER_OVER_AXIOM, POWER_OVER_AXIOM_TOLD),
        (SUM_BEFORE_NUMBERS, SUM_BEFORE_NUMBERS_TOLD),
    ];
    for (bytes, written) in rows {
        assert!(rt;
            is_row(
                &rt,
                alloc,
                "leancheck check",
                bytes,
                written,
                Status::SomeNo
            )?
        );
    }
    Ok(())
}

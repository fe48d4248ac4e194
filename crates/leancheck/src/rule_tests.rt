//! Rows: a file for each of some rules, with what is told of it.

use crate::status::Status;
use crate::tests::is_row;
use std::test::Fail;

// A name that nothing gives.
const ABSENT: &[u8] = b"2.0.0\n1 #NS 0 a\n2 #NS 0 nope\n0 #EC 2\n#AX 1 0\n";

const ABSENT_TOLD: &[u8] =
    b"no axiom 0 a\n  why UnknownConstant\n  axiom a\nunits 1 yes 0 no 1 memory 0\n";

// A theorem whose proof is the theorem itself, and one whose proof is a later one.
const OF_ITSELF: &[u8] =
    b"2.0.0\n1 #NS 0 False\n0 #ES 0\n#IND 1 0 0 0 0 0 1 1 0\n2 #NS 1 rec\n3 #NS 0 u\n1 #EC 1\n1 #UP 3\n2 #ES 1\n4 #NS 0 t\n3 #EP #BD 4 1 2\n4 #EV 1\n5 #EV 0\n6 #EA 4 5\n7 #EP #BD 4 1 6\n5 #NS 0 motive\n8 #EP #BI 5 3 7\n#REC 2 8 1 1 0 0 1 0 0 0 3\n9 #EC 4\n#THM 4 1 9\n#THM 3 1 9\n";

const OF_ITSELF_TOLD: &[u8] =
    b"yes block 0 False\nno thm 1 t\n  why UnknownConstant\nyes thm 2 u\nunits 3 yes 2 no 1 memory 0\n";

// A level parameter that is not declared.
const UNDECLARED_LEVEL: &[u8] = b"2.0.0\n1 #NS 0 a\n2 #NS 0 u\n1 #UP 2\n0 #ES 1\n#AX 1 0\n";

const UNDECLARED_LEVEL_TOLD: &[u8] =
    b"no axiom 0 a\n  why UndeclaredLevel\n  axiom a\nunits 1 yes 0 no 1 memory 0\n";

// A level parameter that is declared twice.
const LEVEL_TWICE: &[u8] = b"2.0.0\n1 #NS 0 a\n2 #NS 0 v\n3 #NS 0 u\n0 #ES 0\n#AX 1 0 2 3 2\n";

const LEVEL_TWICE_TOLD: &[u8] =
    b"no axiom 0 a\n  why DuplicateLevel\n  axiom a\nunits 1 yes 0 no 1 memory 0\n";

// A name that an earlier declaration of another kind has.
const NAME_TWICE: &[u8] = b"2.0.0\n1 #NS 0 A\n0 #ES 0\n#AX 1 0\n1 #EC 1\n#THM 1 1 1\n#OPAQ 1 0 1\n";

const NAME_TWICE_TOLD: &[u8] =
    b"yes axiom 0 A\n  axiom A\nno thm 1 A\n  why DuplicateName\n  axiom A\nno opaque 2 A\n  why DuplicateName\n  axiom A\nunits 3 yes 1 no 2 memory 0\n";

// A name that an earlier definition has, which is the one that it means.
const FIRST_OF_NAME: &[u8] =
    b"2.0.0\n1 #NS 0 A\n0 #ES 0\n#AX 1 0\n2 #NS 0 d\n1 #EC 1\n#DEF 2 0 1 R 1\n3 #NS 0 x\n2 #EP #BD 3 1 1\n#DEF 2 0 2 A\n";

const FIRST_OF_NAME_TOLD: &[u8] =
    b"yes axiom 0 A\n  axiom A\nyes def 1 d\n  axiom A\nno def 2 d\n  why DuplicateName\n  axiom A\nunits 3 yes 2 no 1 memory 0\n";

// A variable that no binder binds.
const LOOSE_VARIABLE: &[u8] = b"2.0.0\n1 #NS 0 a\n0 #EV 0\n#AX 1 0\n";

const LOOSE_VARIABLE_TOLD: &[u8] =
    b"no axiom 0 a\n  why LooseVariable\n  axiom a\nunits 1 yes 0 no 1 memory 0\n";

// A block whose first constructor says that it is the second.
const SECOND_PLACE: &[u8] =
    b"2.0.0\n1 #NS 0 T\n2 #NS 1 z\n3 #NS 1 s\n1 #US 0\n0 #ES 1\n#IND 1 0 1 0 0 0 1 1 2 2 3\n1 #EC 1\n#CTOR 2 1 1 1 0 0\n4 #NS 0 n\n2 #EP #BD 4 1 1\n#CTOR 3 2 1 0 0 1\n5 #NS 1 rec\n6 #NS 0 u\n2 #UP 6\n3 #ES 2\n7 #NS 0 t\n4 #EP #BD 7 1 3\n5 #EV 0\n6 #EC 2\n7 #EA 5 6\n8 #EV 2\n9 #EA 8 5\n10 #EV 3\n11 #EC 3\n12 #EV 1\n13 #EA 11 12\n14 #EA 10 13\n8 #NS 0 n_ih\n15 #EP #BD 8 9 14\n16 #EP #BD 4 1 15\n17 #EA 10 5\n18 #EP #BD 7 1 17\n9 #NS 0 s\n19 #EP #BD 9 16 18\n10 #NS 0 z\n20 #EP #BD 10 7 19\n11 #NS 0 motive\n21 #EP #BI 11 4 20\n22 #EL #BD 9 16 12\n23 #EL #BD 10 7 22\n24 #EL #BI 11 4 23\n0 #RR 2 0 24\n25 #EA 12 5\n26 #EC 5 2\n27 #EA 26 10\n28 #EA 27 8\n29 #EA 28 12\n30 #EA 29 5\n31 #EA 25 30\n32 #EL #BD 4 1 31\n33 #EL #BD 9 16 32\n34 #EL #BD 10 7 33\n35 #EL #BI 11 4 34\n1 #RR 3 1 35\n#REC 5 21 1 1 0 0 1 2 2 0 1 0 6\n";

const SECOND_PLACE_TOLD: &[u8] = b"no block 0 T\n  why BlockShape\nunits 1 yes 0 no 1 memory 0\n";

// A constructor whose parameter has the type of the block's only by unfolding.
const PARAMETER_BY_CONVERSION: &[u8] =
    b"2.0.0\n1 #NS 0 A\n1 #US 0\n0 #ES 1\n#AX 1 0\n2 #NS 0 Ty\n2 #US 1\n1 #ES 2\n#DEF 2 1 0 R 1\n3 #NS 0 Ty2\n2 #EC 1\n#DEF 3 0 2 R 1\n4 #NS 0 T\n5 #NS 4 c\n6 #NS 0 a\n3 #EP #BD 6 0 0\n#IND 4 3 0 0 1 0 1 4 1 5\n4 #EC 3\n5 #EC 4\n6 #EA 5 2\n7 #NS 0 \xce\xb1\n7 #EP #BD 7 4 6\n#CTOR 5 7 4 0 1 0\n";

const PARAMETER_BY_CONVERSION_TOLD: &[u8] =
    b"yes axiom 0 A\n  axiom A\nyes def 1 Ty\nyes def 2 Ty2\n  axiom A\nno block 3 T\n  why ParameterDiffers\n  axiom A\nunits 4 yes 3 no 1 memory 0\n";

// A recursor that says it is by k, of a type with two constructors.
const NOT_BY_K: &[u8] =
    b"2.0.0\n1 #NS 0 T\n2 #NS 1 z\n3 #NS 1 s\n1 #US 0\n0 #ES 1\n#IND 1 0 1 0 0 0 1 1 2 2 3\n1 #EC 1\n#CTOR 2 1 1 0 0 0\n4 #NS 0 n\n2 #EP #BD 4 1 1\n#CTOR 3 2 1 1 0 1\n5 #NS 1 rec\n6 #NS 0 u\n2 #UP 6\n3 #ES 2\n7 #NS 0 t\n4 #EP #BD 7 1 3\n5 #EV 0\n6 #EC 2\n7 #EA 5 6\n8 #EV 2\n9 #EA 8 5\n10 #EV 3\n11 #EC 3\n12 #EV 1\n13 #EA 11 12\n14 #EA 10 13\n8 #NS 0 n_ih\n15 #EP #BD 8 9 14\n16 #EP #BD 4 1 15\n17 #EA 10 5\n18 #EP #BD 7 1 17\n9 #NS 0 s\n19 #EP #BD 9 16 18\n10 #NS 0 z\n20 #EP #BD 10 7 19\n11 #NS 0 motive\n21 #EP #BI 11 4 20\n22 #EL #BD 9 16 12\n23 #EL #BD 10 7 22\n24 #EL #BI 11 4 23\n0 #RR 2 0 24\n25 #EA 12 5\n26 #EC 5 2\n27 #EA 26 10\n28 #EA 27 8\n29 #EA 28 12\n30 #EA 29 5\n31 #EA 25 30\n32 #EL #BD 4 1 31\n33 #EL #BD 9 16 32\n34 #EL #BD 10 7 33\n35 #EL #BI 11 4 34\n1 #RR 3 1 35\n#REC 5 21 1 1 0 0 1 2 2 0 1 1 6\n";

const NOT_BY_K_TOLD: &[u8] = b"no block 0 T\n  why RecursorDiffers\nunits 1 yes 0 no 1 memory 0\n";

// A type that occurs in an argument of another one, with its recursors.
const NESTED: &[u8] =
    b"2.0.0\n1 #NS 0 List\n2 #NS 0 u\n3 #NS 1 nil\n4 #NS 1 cons\n1 #UP 2\n2 #US 1\n0 #ES 2\n5 #NS 0 \xce\xb1\n1 #EP #BD 5 0 0\n#IND 1 1 1 0 1 0 1 1 2 3 4 2\n2 #EC 1 1\n3 #EV 0\n4 #EA 2 3\n5 #EP #BI 5 0 4\n#CTOR 3 5 1 0 1 0 2\n6 #EV 1\n7 #EA 2 6\n8 #EV 2\n9 #EA 2 8\n6 #NS 0 tail\n10 #EP #BD 6 7 9\n7 #NS 0 head\n11 #EP #BD 7 3 10\n12 #EP #BI 5 0 11\n#CTOR 4 12 1 1 1 2 2\n8 #NS 1 rec\n9 #NS 0 u_1\n3 #UP 9\n13 #ES 3\n10 #NS 0 t\n14 #EP #BD 10 4 13\n15 #EC 3 1\n16 #EA 15 6\n17 #EA 3 16\n18 #EV 3\n19 #EA 2 18\n20 #EA 18 3\n21 #EV 4\n22 #EC 4 1\n23 #EV 5\n24 #EA 22 23\n25 #EA 24 8\n26 #EA 25 6\n27 #EA 21 26\n11 #NS 0 tail_ih\n28 #EP #BD 11 20 27\n29 #EP #BD 6 19 28\n30 #EP #BD 7 8 29\n31 #EP #BD 10 19 20\n12 #NS 0 cons\n32 #EP #BD 12 30 31\n13 #NS 0 nil\n33 #EP #BD 13 17 32\n14 #NS 0 motive\n34 #EP #BI 14 14 33\n35 #EP #BI 5 0 34\n36 #EL #BD 12 30 6\n37 #EL #BD 13 17 36\n38 #EL #BI 14 14 37\n39 #EL #BD 5 0 38\n0 #RR 3 0 39\n40 #EA 2 21\n41 #EA 8 6\n42 #EA 41 3\n43 #EC 8 3 1\n44 #EA 43 23\n45 #EA 44 21\n46 #EA 45 18\n47 #EA 46 8\n48 #EA 47 3\n49 #EA 42 48\n50 #EL #BD 6 40 49\n51 #EL #BD 7 18 50\n52 #EL #BD 12 30 51\n53 #EL #BD 13 17 52\n54 #EL #BI 14 14 53\n55 #EL #BD 5 0 54\n1 #RR 4 2 55\n#REC 8 35 1 1 1 0 1 2 2 0 1 0 9 2\n15 #NS 0 Tree\n16 #NS 15 node\n4 #US 0\n56 #ES 4\n#IND 15 56 1 1 0 0 1 15 1 16\n57 #EC 1 0\n58 #EC 15\n59 #EA 57 58\n17 #NS 0 c\n60 #EP #BD 17 59 58\n#CTOR 16 60 15 0 0 1\n18 #NS 15 rec\n61 #ES 1\n62 #EP #BD 10 58 61\n63 #EP #BD 10 59 61\n64 #EA 6 3\n65 #EC 16\n66 #EA 65 6\n67 #EA 18 66\n19 #NS 0 c_ih\n68 #EP #BD 19 64 67\n69 #EP #BD 17 59 68\n70 #EC 3 0\n71 #EA 70 58\n72 #EA 6 71\n73 #EA 23 6\n74 #EV 6\n75 #EC 4 0\n76 #EA 75 58\n77 #EA 76 18\n78 #EA 77 8\n79 #EA 74 78\n80 #EP #BD 11 73 79\n20 #NS 0 head_ih\n81 #EP #BD 20 73 80\n82 #EP #BD 6 59 81\n83 #EP #BD 7 58 82\n84 #EA 23 3\n85 #EP #BD 10 58 84\n86 #EP #BD 12 83 85\n87 #EP #BD 13 72 86\n21 #NS 0 node\n88 #EP #BD 21 69 87\n22 #NS 0 motive_2\n89 #EP #BI 22 63 88\n23 #NS 0 motive_1\n90 #EP #BI 23 62 89\n24 #NS 15 rec_1\n91 #EC 24 1\n92 #EA 91 23\n93 #EA 92 21\n94 #EA 93 18\n95 #EA 94 8\n96 #EA 95 6\n97 #EA 96 3\n98 #EA 20 97\n99 #EL #BD 17 59 98\n100 #EL #BD 12 83 99\n101 #EL #BD 13 72 100\n102 #EL #BD 21 69 101\n103 #EL #BI 22 63 102\n104 #EL #BI 23 62 103\n2 #RR 16 1 104\n#REC 18 90 1 15 0 0 2 3 1 2 0 2\n105 #EA 21 3\n106 #EP #BD 10 59 105\n107 #EP #BD 12 83 106\n108 #EP #BD 13 72 107\n109 #EP #BD 21 69 108\n110 #EP #BI 22 63 109\n111 #EP #BI 23 62 110\n112 #EL #BD 12 83 6\n113 #EL #BD 13 72 112\n114 #EL #BD 21 69 113\n115 #EL #BI 22 63 114\n116 #EL #BI 23 62 115\n3 #RR 3 0 116\n117 #EC 18 1\n118 #EA 117 74\n119 #EA 118 23\n120 #EA 119 21\n121 #EA 120 18\n122 #EA 121 8\n123 #EA 122 6\n124 #EA 42 123\n125 #EA 91 74\n126 #EA 125 23\n127 #EA 126 21\n128 #EA 127 18\n129 #EA 128 8\n130 #EA 129 3\n131 #EA 124 130\n132 #EL #BD 6 59 131\n133 #EL #BD 7 58 132\n134 #EL #BD 12 83 133\n135 #EL #BD 13 72 134\n136 #EL #BD 21 69 135\n137 #EL #BI 22 63 136\n138 #EL #BI 23 62 137\n4 #RR 4 2 138\n#REC 24 111 1 15 0 0 2 3 2 3 4 0 2\n";

const NESTED_TOLD: &[u8] = b"yes block 0 List\nyes block 1 Tree\nunits 2 yes 2 no 0 memory 0\n";

// The recursor of an equality at a proof that is no constructor: it computes where both sides are one.
const BY_K: &[u8] =
    b"2.0.0\n1 #NS 0 Eq\n2 #NS 0 u\n3 #NS 1 refl\n1 #UP 2\n0 #ES 1\n1 #EV 0\n2 #EV 1\n3 #ES 0\n4 #NS 0 a\xe2\x9c\x9d\n4 #EP #BD 4 2 3\n5 #NS 0 a\n5 #EP #BD 5 1 4\n6 #NS 0 \xce\xb1\n6 #EP #BI 6 0 5\n#IND 1 6 0 0 2 1 1 1 1 3 2\n7 #EC 1 1\n8 #EA 7 2\n9 #EA 8 1\n10 #EA 9 1\n11 #EP #BD 5 1 10\n12 #EP #BI 6 0 11\n#CTOR 3 12 1 0 2 0 2\n7 #NS 1 rec\n8 #NS 0 u_1\n13 #EV 2\n14 #EA 7 13\n15 #EA 14 2\n16 #EA 15 1\n2 #UP 8\n17 #ES 2\n9 #NS 0 t\n18 #EP #BD 9 16 17\n19 #EP #BD 4 2 18\n20 #EA 1 2\n21 #EC 3 1\n22 #EA 21 13\n23 #EA 22 2\n24 #EA 20 23\n25 #EV 3\n26 #EV 4\n27 #EA 7 26\n28 #EA 27 25\n29 #EA 28 1\n30 #EA 25 2\n31 #EA 30 1\n32 #EP #BD 9 29 31\n33 #EP #BI 4 25 32\n10 #NS 0 refl\n34 #EP #BD 10 24 33\n11 #NS 0 motive\n35 #EP #BI 11 19 34\n36 #EP #BI 5 1 35\n37 #EP #BI 6 0 36\n38 #EL #BD 10 24 1\n39 #EL #BI 11 19 38\n40 #EL #BD 5 1 39\n41 #EL #BI 6 0 40\n0 #RR 3 0 41\n#REC 7 37 1 1 2 1 1 1 1 0 1 8 2\n12 #NS 0 Nat\n13 #NS 12 zero\n14 #NS 12 succ\n3 #US 0\n42 #ES 3\n#IND 12 42 1 0 0 0 1 12 2 13 14\n43 #EC 12\n#CTOR 13 43 12 0 0 0\n15 #NS 0 n\n44 #EP #BD 15 43 43\n#CTOR 14 44 12 1 0 1\n16 #NS 12 rec\n45 #EP #BD 9 43 0\n46 #EC 13\n47 #EA 1 46\n48 #EA 13 1\n49 #EC 14\n50 #EA 49 2\n51 #EA 25 50\n17 #NS 0 n_ih\n52 #EP #BD 17 48 51\n53 #EP #BD 15 43 52\n54 #EA 25 1\n55 #EP #BD 9 43 54\n18 #NS 0 succ\n56 #EP #BD 18 53 55\n19 #NS 0 zero\n57 #EP #BD 19 47 56\n58 #EP #BI 11 45 57\n59 #EL #BD 18 53 2\n60 #EL #BD 19 47 59\n61 #EL #BI 11 45 60\n1 #RR 13 0 61\n62 #EA 2 1\n63 #EC 16 1\n64 #EA 63 25\n65 #EA 64 13\n66 #EA 65 2\n67 #EA 66 1\n68 #EA 62 67\n69 #EL #BD 15 43 68\n70 #EL #BD 18 53 69\n71 #EL #BD 19 47 70\n72 #EL #BI 11 45 71\n2 #RR 14 1 72\n#REC 16 58 1 12 0 0 1 2 2 1 2 0 2\n73 #EC 1 3\n74 #EA 73 43\n75 #EA 74 1\n76 #EA 75 1\n77 #EP #BD 4 43 42\n78 #EA 1 13\n79 #EA 2 25\n80 #EA 73 79\n81 #EC 7 3 3\n82 #EA 81 43\n83 #EA 82 25\n84 #EA 74 26\n85 #EA 84 1\n20 #NS 0 _\n86 #EL #BD 20 85 30\n21 #NS 0 y\n87 #EL #BD 21 43 86\n88 #EA 83 87\n89 #EA 88 1\n90 #EA 89 25\n91 #EA 90 13\n92 #EA 80 91\n93 #EA 92 1\n22 #NS 0 m\n94 #EP #BD 22 78 93\n23 #NS 0 P\n95 #EP #BD 23 77 94\n24 #NS 0 h\n96 #EP #BD 24 76 95\n25 #NS 0 x\n97 #EP #BD 25 43 96\n98 #EC 3 3\n99 #EA 98 79\n100 #EA 99 91\n101 #EL #BD 22 78 100\n102 #EL #BD 23 77 101\n103 #EL #BD 24 76 102\n104 #EL #BD 25 43 103\n#THM 5 97 104\n26 #NS 0 b\n105 #ELN 1\n106 #EA 49 105\n107 #EA 74 106\n108 #ELN 2\n109 #EA 107 108\n110 #EA 82 106\n111 #EA 107 1\n112 #EL #BD 20 111 43\n113 #EL #BD 21 43 112\n114 #EA 110 113\n115 #ELN 7\n116 #EA 114 115\n117 #EA 116 108\n118 #EA 117 1\n119 #EA 74 118\n120 #EA 119 115\n121 #EP #BD 24 109 120\n122 #EA 98 43\n123 #EA 122 118\n124 #EL #BD 24 109 123\n#THM 26 121 124\n27 #NS 0 c\n125 #EA 74 2\n126 #EA 125 1\n127 #EA 82 13\n128 #EA 74 25\n129 #EA 128 1\n130 #EL #BD 20 129 43\n131 #EL #BD 21 43 130\n132 #EA 127 131\n133 #EA 132 115\n134 #EA 133 2\n135 #EA 134 1\n136 #EA 74 135\n137 #EA 136 115\n138 #EP #BD 24 126 137\n139 #EP #BD 21 43 138\n140 #EP #BD 25 43 139\n141 #EA 122 115\n142 #EL #BD 24 126 141\n143 #EL #BD 21 43 142\n144 #EL #BD 25 43 143\n#THM 27 140 144\n28 #NS 0 d\n145 #EA 74 105\n146 #EA 145 108\n147 #EA 82 105\n148 #EA 145 1\n149 #EL #BD 20 148 43\n150 #EL #BD 21 43 149\n151 #EA 147 150\n152 #EA 151 115\n153 #EA 152 108\n154 #EA 153 1\n155 #EA 74 154\n156 #EA 155 115\n157 #EP #BD 24 146 156\n158 #EL #BD 24 146 141\n#THM 28 157 158\n";

const BY_K_TOLD: &[u8] =
    b"yes block 0 Eq\nyes block 1 Nat\nyes thm 2 a\nyes thm 3 b\nno thm 4 c\n  why ValueType\nno thm 5 d\n  why ValueType\nunits 6 yes 4 no 2 memory 0\n";

#[test]
fn rows_of_the_rules(rt: HostRuntime) -> Result<(), Fail> {
    let alloc = rt.alloc();
    let rows: [(&[u8], &[u8], Status); 12] = [
        (ABSENT, ABSENT_TOLD, Status::SomeNo),
        (OF_ITSELF, OF_ITSELF_TOLD, Status::SomeNo),
        (UNDECLARED_LEVEL, UNDECLARED_LEVEL_TOLD, Status::SomeNo),
        (LEVEL_TWICE, LEVEL_TWICE_TOLD, Status::SomeNo),
        (NAME_TWICE, NAME_TWICE_TOLD, Status::SomeNo),
        (FIRST_OF_NAME, FIRST_OF_NAME_TOLD, Status::SomeNo),
        (LOOSE_VARIABLE, LOOSE_VARIABLE_TOLD, Status::SomeNo),
        (SECOND_PLACE, SECOND_PLACE_TOLD, Status::SomeNo),
        (
            PARAMETER_BY_CONVERSION,
            PARAMETER_BY_CONVERSION_TOLD,
            Status::SomeNo,
        ),
        (NOT_BY_K, NOT_BY_K_TOLD, Status::SomeNo),
        (NESTED, NESTED_TOLD, Status::AllYes),
        (BY_K, BY_K_TOLD, Status::SomeNo),
    ];
    for (bytes, written, status) in rows {
        assert!(rt; is_row(&rt, alloc, "leancheck check", bytes, written, status)?);
    }
    Ok(())
}

//! Texts: strings with one code unit a byte, and slices of bytes and characters. Go specification (as of
//! Go 1.17), "Conversions to and from a string type".

/// Functions and variables, in order.
pub const TEXT: [&'static str; 5] = [
    // The character at a byte, and how many bytes it has; what is no UTF-8 is U+FFFD and one byte.
    "
function $rune($s,$i){
 var $a=$s.charCodeAt($i);
 var $n=$s.length-$i;
 var $b=0;
 var $c=0;
 var $d=0;
 if($a<128){
  return [$a,1];
 }
 if($a<194||$a>244||$n<2){
  return [65533,1];
 }
 $b=$s.charCodeAt($i+1);
 if($a<224){
  if($b<128||$b>191){
   return [65533,1];
  }
  return [($a&31)<<6|$b&63,2];
 }
 if($b<($a===224?160:$a===240?144:128)||$b>($a===237?159:$a===244?143:191)||$n<3){
  return [65533,1];
 }
 $c=$s.charCodeAt($i+2);
 if($c<128||$c>191){
  return [65533,1];
 }
 if($a<240){
  return [($a&15)<<12|($b&63)<<6|$c&63,3];
 }
 if($n<4){
  return [65533,1];
 }
 $d=$s.charCodeAt($i+3);
 if($d<128||$d>191){
  return [65533,1];
 }
 return [($a&7)<<18|($b&63)<<12|($c&63)<<6|$d&63,4];
}",
    // The text of a character.
    "
function $encode($n){
 if($n>=0&&$n<128){
  return String.fromCharCode($n);
 }
 if($n<0||$n>1114111||$n>=55296&&$n<57344){
  $n=65533;
 }
 var $t=String.fromCharCode(128|$n&63);
 if($n<2048){
  return String.fromCharCode(192|$n>>6)+$t;
 }
 $t=String.fromCharCode(128|$n>>6&63)+$t;
 if($n<65536){
  return String.fromCharCode(224|$n>>12)+$t;
 }
 return String.fromCharCode(240|$n>>18)+String.fromCharCode(128|$n>>12&63)+$t;
}",
    // The bytes of a text, as a slice.
    "
function $bytes($s){
 var $a=[];
 var $n=$s.length;
 var $i=0;
 if($n>67108864){
  $panic($p6);
 }
 while($i<$n){
  $a.push($s.charCodeAt($i));
  $i=$i+1;
 }
 return [$a,0,$n,$n];
}",
    // The characters of a text, as a slice.
    "
function $runes($s){
 var $a=[];
 var $i=0;
 var $r=$a;
 while($i<$s.length){
  if($a.length===67108864){
   $panic($p6);
  }
  $r=$rune($s,$i);
  $a.push($r[0]);
  $i=$i+$r[1];
 }
 return [$a,0,$a.length,$a.length];
}",
    // The text of a slice of bytes, or where `$r` says so of characters.
    "
function $text($x,$r){
 var $s=\"\";
 var $i=0;
 if($x===null){
  return $s;
 }
 while($i<$x[2]){
  $s=$s+($r?$encode($x[0][$x[1]+$i]):String.fromCharCode($x[0][$x[1]+$i]));
  $i=$i+1;
 }
 return $s;
}",
];
